//! What the lines are calls of.
use crate::help::help;
use crate::things::{Thing, serve_thing};
use book_text::{Desk, Reply, word};

/// A set and a map of ranges, and from what their stores are made.
#[derive(Drop)]
pub(crate) struct Pair<R: Thing + Drop, M: Thing + Drop>
where
    R::Origin: Copy,
    M::Origin: Copy,
{
    origins: (R::Origin, M::Origin),
    r: R,
    m: M,
}

/// Returns an empty set and an empty map.
pub(crate) fn set_out<R: Thing + Drop, M: Thing + Drop>(
    origins: (R::Origin, M::Origin),
) -> Pair<R, M>
where
    R::Origin: Copy,
    M::Origin: Copy,
{
    Pair {
        origins,
        r: R::empty(origins.0),
        m: M::empty(origins.1),
    }
}

impl<R: Thing + Drop, M: Thing + Drop> Desk for Pair<R, M>
where
    R::Origin: Copy,
    M::Origin: Copy,
{
    fn call(&mut self, words: &str, reply: &mut Reply) -> bool {
        let (name, rest) = word(words);
        let origins = self.origins;
        match name {
            "r" => return serve_thing(origins.0, &mut self.r, rest, reply),
            "m" => return serve_thing(origins.1, &mut self.m, rest, reply),
            "help" if rest == "" => help(reply),
            "new" if rest == "" => {
                self.r = R::empty(origins.0);
                self.m = M::empty(origins.1);
                reply.word("ok")
            }
            _ => return false,
        }
        true
    }

    fn content(&self, reply: &mut Reply) {
        self.r.put(reply);
        self.m.put(reply);
    }
}
