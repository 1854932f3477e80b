//! The stores that a line may open.
use book_text::{Desk, Reply};

/// Which store is open.
#[derive(Clone, Copy)]
pub(crate) enum Open {
    Slab,
    Table,
    Odd,
    Gate,
}

/// A desk over each store. The lines go to one of them.
#[derive(Drop)]
pub(crate) struct Stores<S: Desk + Drop, T: Desk + Drop, O: Desk + Drop, G: Desk + Drop> {
    pub(crate) open: Open,
    pub(crate) slab: S,
    pub(crate) table: T,
    pub(crate) odd: O,
    pub(crate) gate: G,
}

// Returns the store that a word names.
fn named(word: &str) -> Option<Open> {
    match word {
        "slab" => Some(Open::Slab),
        "table" => Some(Open::Table),
        "odd" => Some(Open::Odd),
        "gate" => Some(Open::Gate),
        _ => None,
    }
}

impl<S: Desk + Drop, T: Desk + Drop, O: Desk + Drop, G: Desk + Drop> Stores<S, T, O, G> {
    // Passes a call on to the desk over the open store.
    fn pass(&mut self, words: &str, reply: &mut Reply) -> bool {
        match self.open {
            Open::Slab => self.slab.call(words, reply),
            Open::Table => self.table.call(words, reply),
            Open::Odd => self.odd.call(words, reply),
            Open::Gate => self.gate.call(words, reply),
        }
    }
}

impl<S: Desk + Drop, T: Desk + Drop, O: Desk + Drop, G: Desk + Drop> Desk for Stores<S, T, O, G> {
    fn call(&mut self, words: &str, reply: &mut Reply) -> bool {
        let Some(store) = words.strip_prefix("open ") else {
            return self.pass(words, reply);
        };
        match named(store) {
            Some(open) => self.open = open,
            None => return false,
        }
        reply.word("ok");
        true
    }

    fn content(&self, reply: &mut Reply) {
        self.slab.content(reply);
        self.table.content(reply);
        self.odd.content(reply);
        self.gate.content(reply);
    }
}
