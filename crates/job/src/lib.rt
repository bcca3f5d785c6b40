// Reading the cards of a job file, each by its number, from the part of the file where its message lies.
#![tactic(auto, using(crate::proofs::Reading::cards))]

ghost use Rattle.std.specs.Prelude.{◌≡◌, length};
ghost use Rattle.records.specs.Job.{body_of};
ghost use Rattle.job.specs.Cards.{located, Reads};
ghost use Rattle.job.specs.declared.JobFault.TheVariants as fault;

use draft::Refusal;
use records::{JobRefusal, Missing};

// A card's rows in the table, the bytes used of its body, and where that stands in the file.
#[derive(Clone, Copy, PartialEq, Eq, Debug)]
pub struct Accepted {
    pub rows: usize,
    pub used: usize,
    pub body: usize,
}

// Why no card is read. A card's own refusal has its place in the card's body, another its record's place in the file.
#[derive(Clone, Copy)]
pub enum JobFault {
    Refused { refusal: Refusal, place: usize },
    Missing { refusal: JobRefusal, place: usize },
}

impl From<Missing> for JobFault {
    ghost from_gives = { λ m f. f ≡ fault.Missing m.refusal m.place };

    fn from(missing: Missing) -> JobFault {
        JobFault::Missing {
            refusal: missing.refusal,
            place: missing.place,
        }
    }
}

fn locate(answer: read_answer::Answer, start: usize) -> Result<Accepted, JobFault>
    ensures { result ≡ located start answer }
{
    match answer {
        read_answer::Answer::Accepted { rows, used } => Ok(Accepted {
            rows,
            used,
            body: start,
        }),
        read_answer::Answer::Refused { refusal, place } => Err(JobFault::Refused {
            refusal,
            place,
        }),
    }
}

// Reads a card into a table. Every word of the table is settled: the card's rows, and zeros behind them; on a refusal, zeros.
pub fn read_card(file: &[u8], number: usize, table: &mut [u32]) -> Result<Accepted, JobFault>
    ensures { Reads file.now (length table.old) (body_of file.now number) table.new result }
{
    match card_search::find(file, number) {
        Ok(card) => {
            let body = content::part(file, card.start, card.length);
            locate(reader::read(body, table, draft::MOST_NESTING), card.start)
        }
        Err(missing) => {
            table::clear(table);
            Err(missing.into())
        }
    }
}
