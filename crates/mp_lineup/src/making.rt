//! Making the primaries of a run over its logs.
ghost use Rattle.std.specs.Prelude.{◌≡◌, ℕ, ◌≤◌, [], ◌∷◌, ◌++◌, length, map, vec_capacity, IfOk, IfErr, OnOk, OnErr};
ghost use Rattle.mp_script.specs.Spelling.{IsSpelled};
ghost use Rattle.mp_opening.specs.Openings.{IsLogFromAt};
ghost use Rattle.mp_lineup.specs.LiningUp.{work_over};
ghost use Rattle.mp_lineup.specs.NewMembers.{AreNewMembers};

use crate::putting_back::{put_logs, put_primaries};
use mp_core_trx::Base;
use mp_log::Log;
use mp_model::Memory;
use mp_outside::Disk;
use mp_primary::{Primary, Unmade};
use mp_script::Script;
use std::alloc::Global;

/// Makes the primaries of a script over the first of eight logs, and hands out the logs that are left. `Memory` only for
/// want of memory: the disks of all logs are put back into their list, in their order, which is empty and has room for them.
pub(crate) fn make_primaries<D: Disk + Drop>(
    alloc: Global,
    script: &Script,
    base: Base,
    logs: Vec<Log<D>>,
    disks: &mut Vec<D>,
) -> Result<(Vec<Primary<D>>, Vec<Log<D>>), Memory>
    requires spelled { IsSpelled script.now }
    requires count { length logs.items ≡ 8 }
    requires logs { (place : ℕ) → IsLogFromAt D.Disk base.llsn logs.items place }
    requires none { disks.old.items ≡ [] }
    requires room { 8 ≤ vec_capacity disks.old }
    ensures made { IfOk result (λ made. AreNewMembers D.Disk (work_over script.now base) made.0.items) }
    ensures count { IfOk result (λ made. length made.0.items ≡ script.now.primaries) }
    ensures logs { IfOk result (λ made. map (λ pr. pr.media.log) made.0.items ++ made.1.items ≡ logs.items) }
    ensures untouched { OnOk result (disks.new ≡ disks.old) }
    ensures put_back { OnErr result (disks.new.items ≡ map (λ log. log.disk) logs.items) }
{
    let mut logs = logs;
    let Ok(mut primaries) = Vec::with_capacity(alloc, usize::from(script.primaries)) else {
        put_logs(logs, disks);
        return Err(Memory);
    };
    match make_each(alloc, script, base, &mut logs, &mut primaries) {
        Ok(()) => Ok((primaries, logs)),
        Err(Unmade { log }) => {
            put_all(primaries, log, logs, disks);
            Err(Memory)
        }
    }
}

// Makes a primary over the first log, which is taken out, for each number of the script, until one can't be made.
fn make_each<D: Disk + Drop>(
    alloc: Global,
    script: &Script,
    base: Base,
    logs: &mut Vec<Log<D>>,
    primaries: &mut Vec<Primary<D>>,
) -> Result<(), Unmade<D>>
    requires spelled { IsSpelled script.now }
    requires count { length logs.old.items ≡ 8 }
    requires logs { (place : ℕ) → IsLogFromAt D.Disk base.llsn logs.old.items place }
    requires none { primaries.old.items ≡ [] }
    requires room { script.now.primaries ≤ vec_capacity primaries.old }
    ensures made { OnOk result (AreNewMembers D.Disk (work_over script.now base) primaries.new.items) }
    ensures count { OnOk result (length primaries.new.items ≡ script.now.primaries) }
    ensures logs { OnOk result (map (λ pr. pr.media.log) primaries.new.items ++ logs.new.items ≡ logs.old.items) }
    ensures unmade { IfErr result (λ unmade. map (λ pr. pr.media.log) primaries.new.items ++ unmade.log ∷ logs.new.items
        ≡ logs.old.items) }
{
    for place in 0..script.primaries {
        let log = logs.remove(0);
        match Primary::new(alloc, place + 1, script, base, log) {
            Ok(primary) => primaries.push_reserved(primary),
            Err(unmade) => return Err(unmade),
        }
    }
    Ok(())
}

// Puts back the disks of the primaries that were made, of the log whose primary wasn't, and of the logs behind it.
fn put_all<D: Disk + Drop>(
    primaries: Vec<Primary<D>>,
    log: Log<D>,
    rest: Vec<Log<D>>,
    disks: &mut Vec<D>,
)
    requires none { disks.old.items ≡ [] }
    requires room { length (map (λ pr. pr.media.log) primaries.items ++ log ∷ rest.items) ≤ vec_capacity disks.old }
    ensures { disks.new.items ≡ map (λ log. log.disk) (map (λ pr. pr.media.log) primaries.items ++ log ∷ rest.items) }
{
    put_primaries(primaries, disks);
    disks.push_reserved(log.into_disk());
    put_logs(rest, disks);
}
