// The layout of a book file: messages, sets and books, each read off the front of the bytes that are left.

ghost use Rattle.std.specs.Prelude.{◌≡◌, ◌+◌, ◌*◌, ◌&&◌, ◌≤◌, ◌<◌, true, false, MatchOption, length};
ghost use Rattle.std.specs.Iterator.{YieldsFirst, YieldsFirstBy, item_count};
ghost use Rattle.model.specs.Tables.{seats, capacity};
ghost use Rattle.model.specs.Questions.{longest_file};
ghost use Rattle.model.specs.Fair.{named};
ghost use Rattle.model.specs.Books.{whole, names, book_in, books_in, good_names, good_set, good_book, good_panels, sent_bytes, panel_bytes};
ghost use Rattle.books.specs.Layout.{LaidSets, LaidBooks, FirstPart, headed};

use model::{MessageNumber, Name, Table};

// Messages, two bytes each: sender and number.
#[derive(Clone, Copy)]
pub struct Names<'a> {
    pub bytes: &'a [u8],
}

impl<'a> Iterator for Names<'a> {
    type Item = Name;

    ghost next_gives = { YieldsFirst (λ s. names s.bytes.now) };

    ghost remaining = { item_count (λ s. names s.bytes.now) };

    #[tactic(auto, unfolding(model::specs::Books::names))]
    fn next(&mut self) -> Option<Name> {
        let [sender, number, rest @ ..] = self.bytes else {
            return None;
        };
        self.bytes = rest;
        Some(Name {
            sender: *sender,
            number: MessageNumber(*number),
        })
    }
}

// Sender and number are in their ranges.
#[tactic(auto, unfolding(model::specs::Fair::named))]
fn good_name(name: Name) -> bool
    ensures { result ≡ (named seats name.sender && named capacity name.number.0) }
{
    let known = (0 < name.sender) & (name.sender as usize <= Table::CONTROLLERS);
    known & ((0 < name.number.0) & (name.number.0 as usize <= Table::MESSAGES))
}

impl<'a> Names<'a> {
    // The bytes of a message.
    pub const SIZE: usize = 2;

    // Whether each is in its ranges, and no byte is left over.
    pub fn are_good(mut self) -> bool
        ensures { result ≡ good_names self.entry.bytes.now }
    {
        self.bytes.len() % Self::SIZE == 0 && self.all(good_name)
    }
}

// A set has a message.
fn good_set(bytes: &[u8]) -> bool
    ensures { result ≡ good_set bytes.now }
{
    !bytes.is_empty() && (Names { bytes }).are_good()
}

// The first set, and the bytes after it: its length stands before it in one byte.
fn split_set(bytes: &[u8]) -> Option<(&[u8], &[u8])>
    ensures { MatchOption result (0 < length bytes.now → whole 1 0 bytes.now ≡ false) (λ p. FirstPart 1 bytes.now p.0.now p.1.now) }
{
    let (size, rest) = bytes.split_first()?;
    rest.split_at_checked(*size as usize)
}

// A length of two bytes, the high one first.
fn size(high: u8, low: u8) -> usize
    ensures { result ≡ high * 256 + low }
{
    usize::from(u16::from_be_bytes([high, low]))
}

// The first book, and the bytes after it: its length stands before it in two bytes, the high one first. (Beside `split_set`, as `Books`
// beside `Sets`: how a length is read, what is tested and what an item is differ, and a trait for the three is no plainer.)
fn split_book(bytes: &[u8]) -> Option<(&[u8], &[u8])>
    ensures { MatchOption result (0 < length bytes.now → whole 2 0 bytes.now ≡ false) (λ p. FirstPart 2 bytes.now p.0.now p.1.now) }
{
    let [high, low, rest @ ..] = bytes else {
        return None;
    };
    rest.split_at_checked(size(*high, *low))
}

// A panel's book: sets one after the other, laid out right.
#[derive(Clone, Copy)]
pub struct Sets<'a> {
    pub bytes: &'a [u8],
    pub ghost laid: { LaidSets bytes.now },
}

impl<'a> Iterator for Sets<'a> {
    type Item = Names<'a>;

    ghost next_gives = { YieldsFirstBy (λ x. names x.bytes.now) (λ s. book_in s.bytes.now) };

    ghost remaining = { item_count (λ s. book_in s.bytes.now) };

    fn next(&mut self) -> Option<Names<'a>> {
        let (bytes, rest) = split_set(self.bytes)?;
        self.bytes = rest;
        Some(Names { bytes })
    }
}

impl<'a> Sets<'a> {
    // They are read if all of them are there, each with a message.
    #[tactic(auto, using(crate::proofs::Laid::set_bad, crate::proofs::Laid::set_good, crate::proofs::Laid::good_none, crate::proofs::Laid::good_short, crate::proofs::Laid::good_laid))]
    pub(crate) fn read(bytes: &'a [u8]) -> Option<Self>
        requires { length bytes.now ≤ longest_file }
        ensures { MatchOption result (good_book bytes.now ≡ false) (λ b. (good_book bytes.now ≡ true) × (b.bytes.now ≡ bytes.now)) }
    {
        let mut left = bytes;
        while !left.is_empty() {
            let (set, rest) = split_set(left)?;
            if !good_set(set) {
                return None;
            }
            left = rest;
        }
        Some(Sets { bytes })
    }
}

// Books one after the other, each laid out right.
#[derive(Clone, Copy)]
pub struct Books<'a> {
    pub bytes: &'a [u8],
    pub ghost laid: { LaidBooks bytes.now },
}

impl<'a> Iterator for Books<'a> {
    type Item = Sets<'a>;

    ghost next_gives = { YieldsFirstBy (λ x. book_in x.bytes.now) (λ s. books_in s.bytes.now) };

    ghost remaining = { item_count (λ s. books_in s.bytes.now) };

    fn next(&mut self) -> Option<Sets<'a>> {
        let (bytes, rest) = split_book(self.bytes)?;
        self.bytes = rest;
        Some(Sets { bytes })
    }
}

impl<'a> Books<'a> {
    // How many they are.
    fn number(self) -> usize
        ensures { result ≡ length (books_in self.entry.bytes.now) }
    {
        self.count()
    }

    // They are read if all of them are there, as many as there can be panels.
    #[tactic(auto, using(crate::proofs::Laid::book_bad, crate::proofs::Laid::book_good, crate::proofs::Laid::pass_none, crate::proofs::Laid::pass_short, crate::proofs::Laid::pass_laid, crate::proofs::Laid::panels_refused, crate::proofs::Laid::panels_read, crate::proofs::Laid::panels_none, crate::proofs::Laid::panels_many))]
    pub(crate) fn read(bytes: &'a [u8]) -> Option<Self>
        requires { length bytes.now ≤ longest_file }
        ensures { MatchOption result (good_panels bytes.now ≡ false) (λ b. (good_panels bytes.now ≡ true) × (b.bytes.now ≡ bytes.now)) }
    {
        let mut left = bytes;
        while !left.is_empty() {
            let (book, rest) = split_book(left)?;
            Sets::read(book)?;
            left = rest;
        }
        let books = Books { bytes };
        match books.number() {
            1..=Table::CONTROLLERS => Some(books),
            _ => None,
        }
    }
}

const VERSION: u8 = 1;

// The messages sent, and the books of the panels; none if the file is too long, or of another version, or ends before.
pub fn split_file(bytes: &[u8]) -> Option<(&[u8], &[u8])>
    ensures { MatchOption result (headed bytes.now ≡ false) (λ p. (headed bytes.now ≡ true) × (p.0.now ≡ sent_bytes bytes.now) × (p.1.now ≡ panel_bytes bytes.now)) }
{
    let [version, high, low, rest @ ..] = bytes else {
        return None;
    };
    if *version != VERSION || Table::LONGEST_FILE < bytes.len() {
        return None;
    }
    rest.split_at_checked(size(*high, *low))
}
