//! Contexts of one length, one after another in one block of links.

ghost use Rattle.std.specs.Prelude.{◌≡◌, ◌+◌, ◌<◌, List, [], ◌∷◌, ◌++◌, length, All, OnOk, OnErr, slice_get, Some};
ghost use Rattle.geo_base.specs.declared.link.Link.{Link};
ghost use Rattle.geo_base.specs.Context.{IsStack};
ghost use Rattle.geo_base.specs.Block.{rows, IsBlock};

use crate::context::Context;
use crate::link::Link;
use crate::refusal::Memory;
use std::alloc::Global;
use std::marker::Model;

/// Contexts, all with the same number of links.
///
/// The links lie in one block, so a context takes no more room than its links.
#[derive(Drop)]
pub struct Survivors {
    // the links of the contexts, one context after another
    links: Vec<Link>,
    // the number of contexts
    count: usize,
    // the number of links of each context
    stride: usize,
}

impl Model for Survivors {
    ghost Value = { List (List Link) };

    ghost view = { λ s. rows s.count s.stride s.links.items };

    ghost invariant = { λ s. IsBlock s.count s.stride s.links.items };
}

impl Survivors {
    /// No contexts; takes no memory.
    pub fn new(alloc: Global) -> Survivors
        ensures { result ≡ [] }
    {
        Survivors {
            links: Vec::new(alloc),
            count: 0,
            stride: 1,
        }
    }

    /// Leaves no contexts, and keeps the room of those that were held.
    pub fn clear(&mut self)
        ensures { self.new ≡ [] }
    {
        self.links.clear();
        self.count = 0;
        self.stride = 1;
    }

    /// Adds the context of some links and one more below them, which is as long as each that is held.
    /// After want of memory all is as before.
    pub fn push(&mut self, front: &[Link], last: Link) -> Result<(), Memory>
        requires stack { IsStack (front.now ++ last ∷ []) }
        requires even { All (λ c. length c ≡ length front.now + 1) self.old }
        ensures ok { OnOk result (self.new ≡ self.old ++ (front.now ++ last ∷ []) ∷ []) }
        ensures err { OnErr result (self.new ≡ self.old) }
    {
        let before = self.links.len();
        self.links.extend_from_slice(front)?;
        if self.links.push(last).is_err() {
            self.links.truncate(before);
            return Err(Memory);
        }
        self.stride = front.len() + 1;
        self.count += 1;
        Ok(())
    }

    /// The number of contexts.
    #[allow(clippy::len_without_is_empty)]
    pub fn len(&self) -> usize
        ensures { result ≡ length self.now }
    {
        self.count
    }

    /// The links of the context at a place, counted from 0.
    pub fn at(&self, place: usize) -> &[Link]
        requires { place < length self.now }
        ensures value { slice_get self.now place ≡ Some result.now }
        ensures stack { IsStack result.now }
        ensures even { All (λ c. length c ≡ length result.now) self.now }
    {
        let links = self.links.as_slice();
        let start = place * self.stride;
        &links[start..start + self.stride]
    }

    /// The context at a place, counted from 0, on its own.
    pub fn context(&self, place: usize) -> Context
        requires { place < length self.now }
        ensures { slice_get self.now place ≡ Some result }
    {
        let links = self.at(place);
        let mut context = Context::new(links[0]);
        for i in 1..links.len() {
            context.push(links[i]);
        }
        context
    }
}
