//! What the run's machine begins from, at run time.

use mp_core_trx::TrxOpening;
use mp_page::Pages;
use std::marker::Model;
use std::snapshot::Snapshot;

/// What the transactions begin from, and which pages there were. It has no page.
#[derive(Drop)]
pub struct Opening {
    pub(crate) trx: TrxOpening,
    pub(crate) pages: Snapshot<Pages>,
}

impl Model for Opening {
    ghost use Rattle.mp_core.specs.declared.opening.CoreOpening.{CoreOpening};

    ghost Value = { CoreOpening };

    ghost view = { λ o. record { trx = o.trx; pages = o.pages.value.items } };
}
