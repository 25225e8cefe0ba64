// Document 01's legal moves as one fixed table: a line for each `Row`, in its order, against the ten
// states.
use crate::Move;
use crate::entries::{DAT, DIS, IDL, IDT, IGN, ILL, INA, PRG, RCV, RDY, SIL, STB, TRN};

pub const MOVES: [[Move; 10]; 20] = [
    // idl  rdy  idt  stb  trn  dat  rcv  prg  dis  ina: the state in which the command comes
    [IDL, IDL, IDL, IDL, IDL, IDL, IDL, IDL, IDL, IGN], // CMD0
    [IDL, SIL, SIL, SIL, SIL, SIL, SIL, SIL, SIL, IGN], // CMD1, window 0
    [RDY, SIL, SIL, SIL, SIL, SIL, SIL, SIL, SIL, IGN], // CMD1, window shares a bit with the OCR
    [INA, SIL, SIL, SIL, SIL, SIL, SIL, SIL, SIL, IGN], // CMD1, else
    [SIL, IDT, SIL, SIL, SIL, SIL, SIL, SIL, SIL, IGN], // CMD2, won
    [SIL, SIL, SIL, SIL, SIL, SIL, SIL, SIL, SIL, IGN], // CMD2, lost
    [SIL, SIL, STB, SIL, SIL, SIL, SIL, SIL, SIL, IGN], // CMD3
    [SIL, SIL, SIL, SIL, SIL, SIL, SIL, SIL, SIL, IGN], // CMD4
    [IGN, IGN, IGN, TRN, ILL, ILL, ILL, ILL, PRG, IGN], // CMD7, own
    [IGN, IGN, IGN, IGN, STB, STB, IGN, DIS, IGN, IGN], // CMD7, other
    [IGN, IGN, IGN, STB, ILL, ILL, ILL, ILL, IGN, IGN], // CMD9, 10
    [IGN, IGN, IGN, IGN, ILL, TRN, PRG, ILL, IGN, IGN], // CMD12
    [IGN, IGN, IGN, STB, TRN, DAT, RCV, PRG, DIS, IGN], // CMD13
    [IGN, IGN, IGN, INA, INA, INA, INA, INA, INA, IGN], // CMD15
    [IGN, IGN, IGN, IGN, TRN, ILL, ILL, ILL, IGN, IGN], // CMD16, 32, 33, 35, 36
    [IGN, IGN, IGN, IGN, DAT, ILL, ILL, ILL, IGN, IGN], // CMD17, 18, 30
    [IGN, IGN, IGN, IGN, RCV, ILL, ILL, ILL, IGN, IGN], // CMD24, 25, 42
    [IGN, IGN, IGN, IGN, PRG, ILL, ILL, ILL, IGN, IGN], // CMD28, 29, 38
    [SIL, SIL, SIL, SIL, SIL, SIL, SIL, SIL, SIL, IGN], // CMD9, 10, 13, 15 for another address
    [IGN, IGN, IGN, IGN, ILL, ILL, ILL, ILL, IGN, IGN], // unsupported
];
