// The classes of bytes, as specs/Classes.antt of `text` has them, and the class of each byte value, in a table that the program
// `classes` prints. Assumes nothing.
#![tactic(auto)]

ghost use Rattle.std.specs.Prelude.{◌≡◌};
ghost use Rattle.text.specs.Classes.{class_of, class_table};

// Stays: numbers and no enum, since `class_of` and `class_table` of `text` give numbers, and `steps` looks up a word by a class.
pub const SINGLE: u8 = 0;

pub const LOW_TAIL: u8 = 1;

pub const MIDDLE_TAIL: u8 = 2;

pub const HIGH_TAIL: u8 = 3;

pub const NEVER: u8 = 4;

pub const LEAD_TWO: u8 = 5;

pub const LEAD_THREE_LEAST: u8 = 6;

pub const LEAD_THREE: u8 = 7;

pub const LEAD_THREE_SURROGATE: u8 = 8;

pub const LEAD_FOUR_LEAST: u8 = 9;

pub const LEAD_FOUR: u8 = 10;

pub const LEAD_FOUR_MOST: u8 = 11;

// The class of a byte, in the table. What reads many bytes lends the table on, so that it is laid out once.
pub fn class_in(table: &[u8; 256], b: u8) -> u8
    requires { table.now ≡ class_table }
    ensures { result ≡ class_of b }
{
    table[b as usize]
}

// The class of a byte.
pub fn class_of(b: u8) -> u8
    ensures { result ≡ class_of b }
{
    class_in(&CLASSES, b)
}

// The class of each byte value.
pub const CLASSES: [u8; 256] = [
    // 0x00
    SINGLE,
    SINGLE,
    SINGLE,
    SINGLE,
    SINGLE,
    SINGLE,
    SINGLE,
    SINGLE,
    SINGLE,
    SINGLE,
    SINGLE,
    SINGLE,
    SINGLE,
    SINGLE,
    SINGLE,
    SINGLE,
    // 0x10
    SINGLE,
    SINGLE,
    SINGLE,
    SINGLE,
    SINGLE,
    SINGLE,
    SINGLE,
    SINGLE,
    SINGLE,
    SINGLE,
    SINGLE,
    SINGLE,
    SINGLE,
    SINGLE,
    SINGLE,
    SINGLE,
    // 0x20
    SINGLE,
    SINGLE,
    SINGLE,
    SINGLE,
    SINGLE,
    SINGLE,
    SINGLE,
    SINGLE,
    SINGLE,
    SINGLE,
    SINGLE,
    SINGLE,
    SINGLE,
    SINGLE,
    SINGLE,
    SINGLE,
    // 0x30
    SINGLE,
    SINGLE,
    SINGLE,
    SINGLE,
    SINGLE,
    SINGLE,
    SINGLE,
    SINGLE,
    SINGLE,
    SINGLE,
    SINGLE,
    SINGLE,
    SINGLE,
    SINGLE,
    SINGLE,
    SINGLE,
    // 0x40
    SINGLE,
    SINGLE,
    SINGLE,
    SINGLE,
    SINGLE,
    SINGLE,
    SINGLE,
    SINGLE,
    SINGLE,
    SINGLE,
    SINGLE,
    SINGLE,
    SINGLE,
    SINGLE,
    SINGLE,
    SINGLE,
    // 0x50
    SINGLE,
    SINGLE,
    SINGLE,
    SINGLE,
    SINGLE,
    SINGLE,
    SINGLE,
    SINGLE,
    SINGLE,
    SINGLE,
    SINGLE,
    SINGLE,
    SINGLE,
    SINGLE,
    SINGLE,
    SINGLE,
    // 0x60
    SINGLE,
    SINGLE,
    SINGLE,
    SINGLE,
    SINGLE,
    SINGLE,
    SINGLE,
    SINGLE,
    SINGLE,
    SINGLE,
    SINGLE,
    SINGLE,
    SINGLE,
    SINGLE,
    SINGLE,
    SINGLE,
    // 0x70
    SINGLE,
    SINGLE,
    SINGLE,
    SINGLE,
    SINGLE,
    SINGLE,
    SINGLE,
    SINGLE,
    SINGLE,
    SINGLE,
    SINGLE,
    SINGLE,
    SINGLE,
    SINGLE,
    SINGLE,
    SINGLE,
    // 0x80
    LOW_TAIL,
    LOW_TAIL,
    LOW_TAIL,
    LOW_TAIL,
    LOW_TAIL,
    LOW_TAIL,
    LOW_TAIL,
    LOW_TAIL,
    LOW_TAIL,
    LOW_TAIL,
    LOW_TAIL,
    LOW_TAIL,
    LOW_TAIL,
    LOW_TAIL,
    LOW_TAIL,
    LOW_TAIL,
    // 0x90
    MIDDLE_TAIL,
    MIDDLE_TAIL,
    MIDDLE_TAIL,
    MIDDLE_TAIL,
    MIDDLE_TAIL,
    MIDDLE_TAIL,
    MIDDLE_TAIL,
    MIDDLE_TAIL,
    MIDDLE_TAIL,
    MIDDLE_TAIL,
    MIDDLE_TAIL,
    MIDDLE_TAIL,
    MIDDLE_TAIL,
    MIDDLE_TAIL,
    MIDDLE_TAIL,
    MIDDLE_TAIL,
    // 0xA0
    HIGH_TAIL,
    HIGH_TAIL,
    HIGH_TAIL,
    HIGH_TAIL,
    HIGH_TAIL,
    HIGH_TAIL,
    HIGH_TAIL,
    HIGH_TAIL,
    HIGH_TAIL,
    HIGH_TAIL,
    HIGH_TAIL,
    HIGH_TAIL,
    HIGH_TAIL,
    HIGH_TAIL,
    HIGH_TAIL,
    HIGH_TAIL,
    // 0xB0
    HIGH_TAIL,
    HIGH_TAIL,
    HIGH_TAIL,
    HIGH_TAIL,
    HIGH_TAIL,
    HIGH_TAIL,
    HIGH_TAIL,
    HIGH_TAIL,
    HIGH_TAIL,
    HIGH_TAIL,
    HIGH_TAIL,
    HIGH_TAIL,
    HIGH_TAIL,
    HIGH_TAIL,
    HIGH_TAIL,
    HIGH_TAIL,
    // 0xC0
    NEVER,
    NEVER,
    LEAD_TWO,
    LEAD_TWO,
    LEAD_TWO,
    LEAD_TWO,
    LEAD_TWO,
    LEAD_TWO,
    LEAD_TWO,
    LEAD_TWO,
    LEAD_TWO,
    LEAD_TWO,
    LEAD_TWO,
    LEAD_TWO,
    LEAD_TWO,
    LEAD_TWO,
    // 0xD0
    LEAD_TWO,
    LEAD_TWO,
    LEAD_TWO,
    LEAD_TWO,
    LEAD_TWO,
    LEAD_TWO,
    LEAD_TWO,
    LEAD_TWO,
    LEAD_TWO,
    LEAD_TWO,
    LEAD_TWO,
    LEAD_TWO,
    LEAD_TWO,
    LEAD_TWO,
    LEAD_TWO,
    LEAD_TWO,
    // 0xE0
    LEAD_THREE_LEAST,
    LEAD_THREE,
    LEAD_THREE,
    LEAD_THREE,
    LEAD_THREE,
    LEAD_THREE,
    LEAD_THREE,
    LEAD_THREE,
    LEAD_THREE,
    LEAD_THREE,
    LEAD_THREE,
    LEAD_THREE,
    LEAD_THREE,
    LEAD_THREE_SURROGATE,
    LEAD_THREE,
    LEAD_THREE,
    // 0xF0
    LEAD_FOUR_LEAST,
    LEAD_FOUR,
    LEAD_FOUR,
    LEAD_FOUR,
    LEAD_FOUR_MOST,
    NEVER,
    NEVER,
    NEVER,
    NEVER,
    NEVER,
    NEVER,
    NEVER,
    NEVER,
    NEVER,
    NEVER,
    NEVER,
];
