// What each line is answered by, and how that is told.
ghost use Rattle.std.specs.Prelude.{◌≡◌, [], ◌∷◌, ◌++◌, Some, Err, IfOk, string_bytes};
ghost use Rattle.store.specs.Laws.{Lawful};
ghost use Rattle.store_calls.specs.Told.{response_line, Responds};
ghost use Rattle.store_calls.specs.declared.responses.Refusal.TheVariants as refusals;

use crate::reading::read_call;
use fault::Fault;
use std::alloc::{AllocError, Global};
use std::error::Error;
use std::fmt;
use store::{Answer, RowStore, perform};

// Why a line has no answer: it is no call, or the store refuses the call.
#[derive(Clone, Copy, Debug, PartialEq, Eq)]
pub enum Refusal {
    NoCall,
    Fault(Fault),
}

impl From<Fault> for Refusal {
    ghost from_gives = { λ fault result. result ≡ refusals.Fault fault };

    fn from(fault: Fault) -> Refusal {
        Refusal::Fault(fault)
    }
}

impl fmt::Display for Refusal {
    ghost output = { λ x. Some (response_line (Err x)) };

    fn fmt<W: fmt::Write>(&self, f: &mut fmt::Formatter<W>) -> fmt::Result {
        match self {
            Refusal::NoCall => write!(f, "not a store call"),
            Refusal::Fault(fault) => write!(f, "{fault}"),
        }
    }
}

impl Error for Refusal {}

// Makes the call of this line. A line that is no call changes nothing.
pub fn respond<S: RowStore>(store: &mut S, line: &str) -> Result<Answer, Refusal>
    ensures { Responds (S.RowStore.meaning store.old) result (S.RowStore.meaning store.new) }
{
    let call = read_call(line).ok_or(Refusal::NoCall)?;
    Ok(perform(store, &call)?)
}

// The line of reply for what a line is answered by, whether accepted or refused.
pub fn reply_line(heap: Global, response: Result<Answer, Refusal>) -> Result<String, AllocError>
    ensures { IfOk result (λ line. string_bytes line ≡ response_line response ++ (10 ∷ [])) }
{
    match response {
        Ok(answer) => format!(in heap; "{answer}\n"),
        Err(refusal) => format!(in heap; "{refusal}\n"),
    }
}

// Makes the calls of all lines, and hands back a line of reply for each. Whatever the lines are, the store stays lawful.
pub fn replies<S: RowStore>(heap: Global, store: &mut S, text: &str) -> Result<String, AllocError>
    ensures { Lawful (S.RowStore.meaning store.old) (S.RowStore.meaning store.new) }
{
    let mut told = String::new(heap);
    for line in text.lines() {
        let reply = reply_line(heap, respond(store, line))?;
        told.push_str(reply.as_str())?;
    }
    Ok(told)
}
