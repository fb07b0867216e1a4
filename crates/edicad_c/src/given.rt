//! What a call gives: an answer, and perhaps something to hold.

ghost use Rattle.std.specs.Prelude.{◌≡◌, None};
ghost use Rattle.std.specs.Fn.{FnOnceReturnsAt};
ghost use Rattle.edi_compare.specs.declared.pairing.Pairing.{Pairing};
ghost use Rattle.edicad_c.specs.Held.{IsAnsweredUnder, IsGiven, IsGivenUnder, in_box};
ghost use Rattle.edicad_c.specs.PairLists.{IsPairsHeld, pairs_of};

use crate::answer::Answer;
use crate::content::Content;
use crate::handle::Handle;
use crate::pair::Pair;
use edi_schema::Schema;
use std::alloc::Global;

/// An answer, with what goes into a handle.
#[derive(Drop)]
pub struct Given {
    pub answer: Answer,
    pub content: Option<Box<Content>>,
}

impl Given {
    /// An answer alone.
    pub fn nothing(answer: Answer) -> Given
        ensures answer { result.answer ≡ answer }
        ensures nothing { result.content ≡ None }
    {
        Given {
            answer,
            content: None,
        }
    }

    /// An answer with bytes; or that there is no memory for them.
    pub fn of_bytes(alloc: Global, answer: Answer, bytes: Vec<u8>) -> Given
        ensures { IsGiven answer bytes.items (in_box result.content) result.answer }
    {
        match Box::new(alloc, Content::Bytes(bytes)) {
            Ok(content) => Given {
                answer,
                content: Some(content),
            },
            Err(_) => Given::nothing(Answer::no_memory()),
        }
    }

    /// The pairs of a pairing; or that there is no memory for them.
    pub fn of_pairs(alloc: Global, pairs: Vec<Pair>) -> Given
        ensures { (pairing : Pairing) → pairs.items ≡ pairs_of pairing
            → IsPairsHeld pairing (in_box result.content) result.answer }
    {
        match Box::new(alloc, Content::Pairs(pairs)) {
            Ok(content) => Given {
                answer: Answer::done(),
                content: Some(content),
            },
            Err(_) => Given::nothing(Answer::no_memory()),
        }
    }

    /// Puts what was given into a handle, which is empty where there is nothing, and gives the answer.
    pub fn hand_out(self, alloc: Global, handle: &mut Handle) -> Answer
        ensures content { handle.new.held ≡ in_box self.content }
        ensures answer { result ≡ self.answer }
    {
        let Given { answer, content } = self;
        match content {
            Some(content) => handle.put(content),
            None => handle.clear(alloc),
        }
        answer
    }
}

/// Puts into a handle what is made of the schema that another holds, which stays there, and gives the answer.
pub fn give_under<F: FnOnce(&Schema) -> Given>(
    alloc: Global,
    schema: &mut Handle,
    handle: &mut Handle,
    make: F,
) -> Answer
    requires { F.IsAlwaysCallable make }
    ensures kept { schema.new.held ≡ schema.old.held }
    ensures answer { IsGivenUnder (FnOnceReturnsAt F.FnOnce make) schema.old.held handle.new.held result }
{
    handle.clear(alloc);
    match schema.use_schema(alloc, make) {
        Some(given) => given.hand_out(alloc, handle),
        None => Answer::wrong_call(),
    }
}

/// The answer that is made of the schema that a handle holds, which stays there; or that the call was wrong.
pub fn answer_under<F: FnOnce(&Schema) -> Answer>(
    alloc: Global,
    schema: &mut Handle,
    make: F,
) -> Answer
    requires { F.IsAlwaysCallable make }
    ensures kept { schema.new.held ≡ schema.old.held }
    ensures answer { IsAnsweredUnder (FnOnceReturnsAt F.FnOnce make) schema.old.held result }
{
    match schema.use_schema(alloc, make) {
        Some(answer) => answer,
        None => Answer::wrong_call(),
    }
}
