// What the program prints.
use base::Refusal;
use program_io::Hex;
use text::parts::part;

// What the line shows of CMD2: whether anybody answers.
pub fn heard(rt: &impl Print, shown: Result<Option<usize>, Refusal>, line: [u8; 17]) -> bool {
    let Ok(Some(n)) = shown else {
        let _ = println!(rt; "nobody answers");
        return false;
    };
    let _ = println!(rt; "{} is heard", Hex(part(&line, 0, n)));
    true
}

// The first bytes of the block that the last call gave.
pub fn read(rt: &impl Print, block: [u8; 514]) {
    let _ = println!(rt; "{} is written and read", Hex(&block[..8]));
}

pub fn counted(rt: &impl Print, units: usize, answered: u16) {
    let _ = println!(rt; "{units} units are docked, {answered} rounds were answered");
}
