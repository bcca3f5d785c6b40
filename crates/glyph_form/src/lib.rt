// What a table of glyph rows is written from and to: definitions. See specs/.
#![tactic(auto)]

use draft::Content;
use glyph::{Many, Three};

// What a row's kind names, if the edition has it.
#[derive(Clone, Copy)]
pub enum Sort {
    Integer,
    Boolean,
    Content(Content),
    Nil,
    Many(Many),
    Three(Three),
    Unknown,
}
