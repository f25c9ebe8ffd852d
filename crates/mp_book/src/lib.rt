//! What a primary has answered, and where each of its sessions stands: which statement is next, what its transaction is,
//! and what is still to be put back. It hides nothing: `IsBook` of the contracts says what its fields mean together.
#![tactic(auto)]

mod book;
mod examples;
mod laws;
mod session;
mod stage;

pub use book::Book;
pub use examples::{
    law_answer_examples, law_book_examples, law_list_examples, law_session_examples,
    law_stage_examples, law_statement_examples,
};
pub use laws::law_orderly;
pub use mp_core_trx::Begun;
pub use session::Session;
pub use stage::{Refusal, Stage, Task};
