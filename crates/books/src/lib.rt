// Delivery books: what panels, of any maker, say that they applied, set by set. A book file is checked for its layout, and then for
// what set-constrained delivery promises.
#![tactic(auto)]

ghost use Rattle.std.specs.Prelude.{◌≡◌, false, MatchOption};
ghost use Rattle.model.specs.Books.{names, books_in, laid_out, check_books};
ghost use Rattle.books.specs.Ranks.{book_refusal};
ghost use Rattle.books.specs.Faults.{number, verdict};
ghost use Rattle.books.specs.Files.{IsFile};

mod layout;
mod ranking;

use layout::{Books, Names, split_file};
use model::Table;
use ranking::{Ranks, all_agree, all_once, all_sent};

// What is wrong with a book file: above each, the question to which it is the no, by whose number it is known.
#[derive(Clone, Copy, Debug, PartialEq, Eq)]
pub enum Fault {
    // Is it laid out right?
    Layout = 5,
    // Does no message come twice at a panel?
    Repeated = 22,
    // Was each message of a panel sent?
    NotSent = 23,
    // Have no two panels two messages in opposite order?
    Opposite = 24,
}

impl From<Fault> for u8 {
    ghost from_gives = { λ e n. n ≡ number e };

    fn from(fault: Fault) -> u8 {
        fault as u8
    }
}

// A book file that is laid out right: the messages sent, which have rank 0, and the books of the panels.
#[derive(Drop)]
struct File<'a> {
    sent: Names<'a>,
    ranks: Ranks,
    books: Books<'a>,
}

impl<'a> File<'a> {
    // It is read if it is laid out right: question 5.
    fn read(bytes: &'a [u8]) -> Option<Self>
        ensures { MatchOption result (laid_out bytes.now ≡ false) (λ f. IsFile bytes.now f) }
    {
        let (sent, books) = split_file(bytes)?;
        if Table::MESSAGES * Names::SIZE < sent.len() {
            return None;
        }
        let sent = Names { bytes: sent };
        if !sent.are_good() {
            return None;
        }
        Some(File {
            sent,
            ranks: Ranks::of_set(sent)?,
            books: Books::read(books)?,
        })
    }

    // Questions 22 to 24.
    #[tactic(auto, unfolding(crate::specs::Ranks::book_refusal, model::specs::Questions::first_no, model::specs::Questions::ask))]
    fn check(&self) -> Result<(), Fault>
        ensures { verdict result ≡ book_refusal (names self.now.sent.bytes.now) self.now.ranks.0 (books_in self.now.books.bytes.now) }
    {
        if !all_once(self.books) {
            return Err(Fault::Repeated);
        }
        if !all_sent(self.books, &self.ranks) {
            return Err(Fault::NotSent);
        }
        if !all_agree(self.books, self.sent) {
            return Err(Fault::Opposite);
        }
        Ok(())
    }
}

// Whether a book file is one that panels of one machine can have: the first no of questions 5, 22, 23 and 24.
#[tactic(auto, using(crate::proofs::FileQuestions::refused_5, crate::proofs::FileQuestions::file_answered))]
pub fn check_books(bytes: &[u8]) -> Result<(), Fault>
    ensures { verdict result ≡ check_books bytes.now }
{
    File::read(bytes).ok_or(Fault::Layout)?.check()
}
