// At each panel a message has a rank, the place of its set. A name has a code of its own, where its rank stands; so nothing is searched
// for.

ghost use Rattle.std.specs.Prelude.{◌≡◌, ◌&&◌, ◌<◌, true};
ghost use Rattle.lists.specs.Every.{every};
ghost use Rattle.model.specs.Books.{names, book_in, books_in};
ghost use Rattle.books.specs.Ranks.{code_of, code_count, rank_of, ranked, unranked, Placing, place_names, place_book, Places, ranks_if, ranks_of, once_by_ranks, book_ranked, in_order, ranks_agree, agree_with, agree_by_ranks};

use crate::layout::{Books, Names, Sets};
use model::{Name, Table};

// Senders and numbers count from 1, and 0 has a place too.
const SENDERS: usize = Table::CONTROLLERS + 1;

const NUMBERS: usize = Table::MESSAGES + 1;

// Codes are below this.
const CODES: usize = SENDERS * NUMBERS;

// The ranks that a panel gives the messages, by their codes.
#[derive(Drop)]
pub struct Ranks([u16; CODES]);

impl Ranks {
    // The rank of a message that a panel lacks: it is greater than that of every set, which the order of messages rests on, so it is no
    // `Option`.
    const LACKING: u16 = u16::MAX;

    // Where the rank of a message stands.
    #[tactic(auto, unfolding(crate::specs::Ranks::code_of))]
    fn code(name: Name) -> usize
        ensures is { result ≡ code_of name }
        ensures below { result < code_count }
    {
        let sender = (name.sender as usize).min(Table::CONTROLLERS);
        let number = (name.number.0 as usize).min(Table::MESSAGES);
        sender * NUMBERS + number
    }

    // No message has a rank.
    fn new() -> Self
        ensures { result.0 ≡ unranked }
    {
        Ranks([Self::LACKING; CODES])
    }

    // The rank of a message.
    fn rank_of(&self, name: Name) -> u16
        ensures { result ≡ rank_of self.now.0 name }
    {
        self.0[Self::code(name)]
    }

    // Whether a message has a rank.
    #[tactic(auto, unfolding(crate::specs::Ranks::ranked))]
    fn has(&self, name: Name) -> bool
        ensures { result ≡ ranked self.now.0 name }
    {
        self.rank_of(name) != Self::LACKING
    }

    // Gives messages a rank, up to the first that has one, and says whether none had. It writes in place, as a set's `insert` does, so it
    // answers no more than that.
    #[tactic(auto, using(crate::proofs::Placed::place_end, crate::proofs::Placed::place_go))]
    fn place(&mut self, messages: Names, rank: u16) -> bool
        ensures { Places (place_names rank (names messages.entry.bytes.now) self.old.0) result self.new.0 }
    {
        for name in messages {
            let code = Self::code(name);
            if self.0[code] != Self::LACKING {
                return false;
            }
            self.0[code] = rank;
        }
        true
    }

    // Messages of one rank; none if one of them comes twice.
    pub fn of_set(messages: Names) -> Option<Self>
        ensures { result ≡ ranks_if (place_names 0 (names messages.entry.bytes.now) unranked) }
    {
        let mut ranks = Self::new();
        ranks.place(messages, 0).then_some(ranks)
    }

    // Each message of a book has the rank of its set, from 0; none if a message comes twice.
    #[tactic(auto, using(crate::proofs::Placed::book_go, crate::proofs::Laid::sets_few))]
    pub fn of_book(book: Sets) -> Option<Self>
        ensures { result ≡ ranks_if (place_book 0 (book_in book.entry.bytes.now) unranked) }
    {
        let mut ranks = Self::new();
        for (rank, set) in book.enumerate() {
            if !ranks.place(set, rank as u16) {
                return None;
            }
        }
        Some(ranks)
    }

    // Whether all the messages of a set have a rank.
    fn has_set(&self, mut set: Names) -> bool
        ensures { result ≡ every (ranked self.now.0) (names set.entry.bytes.now) }
    {
        set.all(|name| self.has(name))
    }

    // Whether all the messages of a book have a rank.
    fn has_book(&self, mut book: Sets) -> bool
        ensures { result ≡ book_ranked self.now.0 (book_in book.entry.bytes.now) }
    {
        book.all(|set| self.has_set(set))
    }
}

// OPPOSITE ORDER

// Whether no message stands after rank x at the one panel and before rank y at the other.
fn in_order(one: &Ranks, other: &Ranks, mut sent: Names, x: u16, y: u16) -> bool
    ensures { result ≡ in_order one.now.0 other.now.0 (names sent.entry.bytes.now) x y }
{
    sent.all(|name| !((x < one.rank_of(name)) & (other.rank_of(name) < y)))
}

// Whether two panels have no two messages in opposite order.
fn agree(one: &Ranks, other: &Ranks, sent: Names) -> bool
    ensures { result ≡ ranks_agree (names sent.entry.bytes.now) one.now.0 other.now.0 }
{
    let mut left = sent;
    left.all(|name| in_order(one, other, sent, one.rank_of(name), other.rank_of(name)))
}

// The same of a panel and the one that has a book; and whether no message comes twice in the book.
fn agrees(one: &Ranks, book: Sets, sent: Names) -> bool
    ensures { result ≡ (once_by_ranks (book_in book.entry.bytes.now) && ranks_agree (names sent.entry.bytes.now) one.now.0 (ranks_of (book_in book.entry.bytes.now))) }
{
    match Ranks::of_book(book) {
        Some(other) => agree(one, &other, sent),
        None => false,
    }
}

// Whether a panel agrees with each of others, if no message comes twice at one.
fn agree_with(one: &Ranks, mut others: Books, sent: Names) -> bool
    ensures { every once_by_ranks (books_in others.entry.bytes.now) ≡ true → result ≡ agree_with (names sent.entry.bytes.now) one.now.0 (books_in others.entry.bytes.now) }
{
    others.all(|book| agrees(one, book, sent))
}

// THE QUESTIONS of all books

// Whether no message comes twice in a book.
fn is_once(book: Sets) -> bool
    ensures { result ≡ once_by_ranks (book_in book.entry.bytes.now) }
{
    Ranks::of_book(book).is_some()
}

// 22: no message comes twice at a panel.
pub fn all_once(mut books: Books) -> bool
    ensures { result ≡ every once_by_ranks (books_in books.entry.bytes.now) }
{
    books.all(is_once)
}

// 23: each message was sent, by the ranks of those that were.
pub fn all_sent(mut books: Books, sent: &Ranks) -> bool
    ensures { result ≡ every (book_ranked sent.now.0) (books_in books.entry.bytes.now) }
{
    books.all(|book| sent.has_book(book))
}

// 24: no two panels have two messages in opposite order, if no message comes twice at one.
pub fn all_agree(mut books: Books, sent: Names) -> bool
    ensures { every once_by_ranks (books_in books.entry.bytes.now) ≡ true → result ≡ agree_by_ranks (names sent.entry.bytes.now) (books_in books.entry.bytes.now) }
{
    while let Some(book) = books.next() {
        let Some(one) = Ranks::of_book(book) else {
            return false;
        };
        if !agree_with(&one, books, sent) {
            return false;
        }
    }
    true
}
