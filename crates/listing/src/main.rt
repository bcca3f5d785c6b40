// Lists one message, from standard input or from the file that is named: its rows, or its refusal.
#![tactic(auto)]

fn list_input(rt: &HostRuntime, room: &mut [u8], table: &mut [u32], listing: &mut [u8]) {
    if let Ok(message) = console::read_input(rt, b"usage: listing [FILE]\n", room) {
        let size = listings::list(message, table, listing);
        console::write(rt, content::part(listing, 0, size));
    }
}

// The table has room for 4,096 rows. A message over 65,536 bytes is refused, so no more than one byte past that is kept of it. No listing
// of 4,096 rows is longer than the buffer for it (`listings/proofs/Room.antt`).
fn main(rt: HostRuntime) {
    let mut room = [0u8; 65537];
    let mut table = [0u32; 16384];
    let mut listing = [0u8; 430158];
    list_input(&rt, &mut room, &mut table, &mut listing);
}
