//! The files of a store and its logs.

ghost use Rattle.std.specs.Prelude.{◌≡◌, ◌≢◌, IfOk, IfErr, length};

use crate::output::Output;
use crate::status::Status;
use mp_files::{Disks, FileDisk, FileRefusal, WindowDisk};
use mp_model::Memory;

/// How many logs there are.
const LOGS: u8 = 8;

/// Opens `store.mp` and `log1.mp` to `log8.mp` in the current folder, and makes missing ones empty. Where one can't be
/// opened, that its disk failed is what is to be said.
pub fn open_disks(rt: HostRuntime) -> Result<Disks<WindowDisk<FileDisk>>, Output>
    ensures eight { IfOk result (λ disks. length disks.logs.items ≡ 8) }
    ensures status { IfErr result (λ output. output.status ≢ Status.Sink) }
{
    let store = match open_ahead(rt, "store.mp") {
        Ok(store) => store,
        Err(FileRefusal::Failed) => return Err(Output::store_failed()),
        Err(FileRefusal::Memory) => return Err(Output::no_memory()),
    };
    let logs = open_logs(rt)?;
    Ok(Disks { store, logs })
}

fn open_logs(rt: HostRuntime) -> Result<Vec<WindowDisk<FileDisk>>, Output>
    ensures eight { IfOk result (λ logs. length logs.items ≡ 8) }
    ensures status { IfErr result (λ output. output.status ≢ Status.Sink) }
{
    let mut logs = Vec::new(rt.alloc());
    for before in 0..LOGS {
        let log = open_log(rt, before + 1)?;
        if logs.push(log).is_err() {
            return Err(Output::no_memory());
        }
    }
    Ok(logs)
}

// Opens the log of a primary.
fn open_log(rt: HostRuntime, primary: u8) -> Result<WindowDisk<FileDisk>, Output>
    ensures status { IfErr result (λ output. output.status ≢ Status.Sink) }
{
    let Ok(name) = format!(in rt.alloc(); "log{primary}.mp") else {
        return Err(Output::no_memory());
    };
    match open_ahead(rt, name.as_str()) {
        Ok(log) => Ok(log),
        Err(FileRefusal::Failed) => Err(Output::log_failed(rt.alloc(), primary)),
        Err(FileRefusal::Memory) => Err(Output::no_memory()),
    }
}

// Opens a file that is read ahead.
fn open_ahead(rt: HostRuntime, name: &str) -> Result<WindowDisk<FileDisk>, FileRefusal> {
    let file = FileDisk::open(rt, name)?;
    match WindowDisk::new(rt.alloc(), file) {
        Ok(disk) => Ok(disk),
        Err(Memory) => Err(FileRefusal::Memory),
    }
}
