//! The answer to a query, of what its text and its rows gave.
ghost use Rattle.std.specs.Prelude.{◌≡◌, Bool, List, IfOk};
ghost use Rattle.requery.specs.eql_rows.declared.row.Row.{Row};
ghost use Rattle.requery.specs.eql_model.Inner.Rows.{GivesRows};
ghost use Rattle.session_core.specs.Answers.{listed_answer, prepare_answer};
ghost use Rattle.session_core.specs.Queries.{is_memory_of, is_memory_of_text, lacks_memory};

use crate::line::{Answer, Ask, Refusal};
use emu_names::Memory;
use eql_resolve::PrepareFault;
use eql_syntax::QueryFault;
use requery::eql_tuples::MatchFault;
use segment_list::Listing;

/// Whether the fault of a text is want of memory.
fn is_memory_of_text(fault: QueryFault) -> bool
    ensures { result ≡ is_memory_of_text fault }
{
    match fault {
        QueryFault::Memory => true,
        QueryFault::TextTooLong => false,
        QueryFault::Syntax(_) => false,
        QueryFault::TooDeep(_) => false,
        QueryFault::TwoMarks(_) => false,
    }
}

/// Whether the fault of a text, or of one of its patterns, is want of memory.
fn is_memory_of(fault: PrepareFault) -> bool
    ensures { result ≡ is_memory_of fault }
{
    match fault {
        PrepareFault::Query(fault) => is_memory_of_text(fault),
        PrepareFault::Memory => true,
        PrepareFault::BadPattern(_) => false,
        PrepareFault::PatternTooLarge(_) => false,
    }
}

/// Whether memory ran out when the query was read.
pub fn lacks_memory(ask: &Ask) -> bool
    ensures { result ≡ lacks_memory ask.now }
{
    match &ask.prepared {
        Ok(_) => false,
        Err(fault) => is_memory_of(*fault),
    }
}

/// The refusal of a query for the fault of its text or of its patterns. Want of memory is answered as such.
pub fn refuse_text(fault: PrepareFault) -> Answer
    ensures { result ≡ prepare_answer fault (is_memory_of fault) }
{
    if is_memory_of(fault) {
        return Answer::Refused(Refusal::Memory);
    }
    Answer::Refused(Refusal::Prepare(fault))
}

/// The answer to a query, of what the listing of its rows gave. The only failure is want of memory.
#[tactic(auto, using(crate::proofs::RowLists::answer_of_rows, crate::proofs::RowLists::answer_of_too_many))]
pub fn answer_listed(listed: Result<Listing, MatchFault>) -> Result<Answer, Memory>
    ensures { (rows : List Row) (too_many : Bool) → GivesRows listed rows too_many
        → IfOk result (λ given. given ≡ listed_answer rows too_many) }
{
    match listed {
        Ok(rows) => Ok(Answer::Segments(rows)),
        Err(MatchFault::TooManyTuples) => Ok(Answer::Refused(Refusal::TooManyTuples)),
        Err(MatchFault::Memory) => Err(Memory),
    }
}
