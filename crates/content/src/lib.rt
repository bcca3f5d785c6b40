// The rules for content, as the reader and the writer apply them: what they say of some bytes.
#![tactic(auto)]

ghost use Rattle.std.specs.Prelude.{◌≡◌};
ghost use Rattle.text.specs.Texts.{ascii};
ghost use Rattle.draft.specs.Bytes.{part as part_of};
ghost use Rattle.draft.specs.Content.{fine_if, content_rule, verdict, name_rule};
ghost use Rattle.content.specs.Flaw.{flaw};

use draft::{Content, Refusal, Verdict};

// The n bytes at o, or as many of them as there are.
pub fn part(s: &[u8], o: usize, n: usize) -> &[u8]
    ensures { result.now ≡ part_of s.now o n }
{
    if s.len() <= o {
        return &s[0..0];
    }
    let rest = &s[o..];
    if rest.len() <= n {
        return rest;
    }
    &rest[0..n]
}

// What the rule for an item's content says of some bytes.
pub fn judge(content: Content, s: &[u8]) -> Verdict
    ensures { result ≡ content_rule content s.now }
{
    match content {
        Content::Double => judge_value(double::is_double(s), s),
        Content::DateTime => judge_value(date::is_datetime(s), s),
        Content::Binary => Ok(()),
        Content::Text => fine_if(text_check::is_utf8(s)),
    }
}

// Of bytes that were found to be a Double or a DateTime, or not. Such a text is ASCII, so only one that is none is looked at for that.
fn judge_value(good: bool, s: &[u8]) -> Verdict
    ensures { result ≡ fine_if good (flaw (ascii s.now)) }
{
    if good {
        return Ok(());
    }
    if ascii::is_ascii(s) {
        Err(Refusal::BadValue)
    } else {
        Err(Refusal::BadText)
    }
}

fn fine_if(good: bool) -> Verdict
    ensures { result ≡ fine_if good Refusal.BadText }
{
    if good { Ok(()) } else { Err(Refusal::BadText) }
}

// What is wrong with the n bytes at o as an item's content, if anything: they are not all there, or their rule refuses them.
pub fn inspect(content: Content, s: &[u8], o: usize, n: usize) -> Verdict
    ensures { result ≡ verdict content s.now o n }
{
    if s.len() < o {
        return Err(Refusal::Ended);
    }
    if s.len() - o < n {
        return Err(Refusal::Ended);
    }
    judge(content, part(s, o, n))
}

// What the rule for the name in an Other says of some bytes.
pub fn judge_name(s: &[u8]) -> Verdict
    ensures { result ≡ name_rule s.now }
{
    if names::is_standard_name(s) {
        Err(Refusal::StandardName)
    } else {
        Ok(())
    }
}
