// Which text is handed out, a card's or behind it the defaults', and that text as a part of one of two lent slices. What each has under the key is given;
// any values may be, and where a text would reach past its bytes the part is cut at their end.
#![tactic(auto)]

ghost use Rattle.std.specs.Prelude.{◌≡◌};
ghost use Rattle.choice.specs.Choosing.{number_of, number_of_source, text_in, preferred, PartOf, Handed};

// What a Struct has under a key: no member, one that is no String, or a String, by where its text lies.
// Stays: three ways, and of two nested Options no reader would know which None is which.
#[derive(Clone, Copy, PartialEq, Eq, Debug)]
pub enum Held {
    Absent,
    NoText,
    Text { offset: u32, length: u32 },
}

// Why no text is handed out: a table is not writable; or a row is no Struct, neither has the key, or the member found is no String.
// Stays: without the lookup's refusal 19, so that the type says that a text is never refused for its digits (E9).
#[derive(Clone, Copy, PartialEq, Eq, Debug)]
pub enum Refusal {
    NotWritable,
    NoMember,
}

// Whose text it is.
#[derive(Clone, Copy, PartialEq, Eq, Debug)]
pub enum Source {
    Card,
    Defaults,
}

// A text that is handed out: whose it is and where it lies there.
#[derive(Clone, Copy, PartialEq, Eq, Debug)]
pub struct Chosen {
    pub source: Source,
    pub offset: u32,
    pub length: u32,
}

// The papers' number of a refusal.
impl From<Refusal> for u8 {
    ghost from_gives = { λ r n. n ≡ number_of r };

    fn from(refusal: Refusal) -> u8 {
        match refusal {
            Refusal::NotWritable => 11,
            Refusal::NoMember => 18,
        }
    }
}

// 0 for the card and 1 for the defaults.
impl From<Source> for u8 {
    ghost from_gives = { λ s n. n ≡ number_of_source s };

    fn from(source: Source) -> u8 {
        match source {
            Source::Card => 0,
            Source::Defaults => 1,
        }
    }
}

// The text that one of the two has.
fn text_in(source: Source, held: Held) -> Result<Chosen, Refusal>
    ensures { result ≡ text_in source held }
{
    match held {
        Held::Text { offset, length } => Ok(Chosen {
            source,
            offset,
            length,
        }),
        Held::Absent | Held::NoText => Err(Refusal::NoMember),
    }
}

// The card's text if its Struct has the key, otherwise the defaults'. A member of the card decides even if it is no String.
pub fn prefer(own: Held, other: Held) -> Result<Chosen, Refusal>
    ensures { result ≡ preferred own other }
{
    match own {
        Held::Absent => text_in(Source::Defaults, other),
        _ => text_in(Source::Card, own),
    }
}

// The n bytes at o, or as many of them as there are, by what they are and by where they lie.
fn part(s: &[u8], o: usize, n: usize) -> &[u8]
    ensures { PartOf s.entry o n result }
{
    let start = o.min(s.len());
    let length = n.min(s.len() - start);
    &s[start..start + length]
}

// A choice as a part of the card's bytes or of the defaults' bytes. `number` is 0 or the refusal's, `source` 0 for the card and 1 for the
// defaults. Refused, it is the empty start of the card's bytes.
// Stays: the numbers are told beside the part, which is one on a refusal too (E9.refused_part).
pub fn hand<'a>(
    choice: Result<Chosen, Refusal>,
    card: &'a [u8],
    defaults: &'a [u8],
    number: &mut u8,
    source: &mut u8,
) -> &'a [u8]
    ensures { Handed card.entry defaults.entry choice result number.new source.new }
{
    match choice {
        Ok(text) => {
            *number = 0;
            *source = text.source.into();
            let bytes = match text.source {
                Source::Card => card,
                Source::Defaults => defaults,
            };
            part(bytes, text.offset as usize, text.length as usize)
        }
        Err(refusal) => {
            *number = refusal.into();
            *source = 0;
            part(card, 0, 0)
        }
    }
}
