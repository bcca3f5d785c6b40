// Prints the class of each byte value, sixteen to a line, and what the classes are, to be held against RFC 3629, section 4.
#![tactic(auto)]

ghost use Rattle.std.specs.Prelude.{◌≤◌};

use std::io;

// Each class: its number, its bytes, and the production of RFC 3629 that they stand in.
const LEGEND: &str = "Classes of bytes, by RFC 3629, section 4

 0  00-7F         UTF8-1
 1  80-8F         UTF8-tail; not the second byte after E0 or F0
 2  90-9F         UTF8-tail; not the second byte after E0 or F4
 3  A0-BF         UTF8-tail; not the second byte after ED or F4
 4  C0-C1, F5-FF  in no character
 5  C2-DF         begins UTF8-2, then a tail
 6  E0            begins UTF8-3, then A0-BF and a tail
 7  E1-EC, EE-EF  begins UTF8-3, then two tails
 8  ED            begins UTF8-3, then 80-9F and a tail
 9  F0            begins UTF8-4, then 90-BF and two tails
10  F1-F3         begins UTF8-4, then three tails
11  F4            begins UTF8-4, then 80-8F and two tails

     0  1  2  3  4  5  6  7  8  9  A  B  C  D  E  F
";

// Sixteen bytes, from one on: the first, and their classes.
fn write_line(rt: &impl Print, first: u8) -> io::Result<()>
    requires { first ≤ 240 }
{
    print!(rt; "{first:02X}:")?;
    for b in first..=first + 15 {
        print!(rt; "{:>3}", byte_classes::class_of(b))?;
    }
    println!(rt; "")
}

fn main(rt: HostRuntime) -> io::Result<()> {
    print!(rt; "{LEGEND}")?;
    for first in (0..=240).step_by(16) {
        write_line(&rt, first)?;
    }
    Ok(())
}
