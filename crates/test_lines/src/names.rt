// The names of a hart's numbers, for what is printed of them.

pub const REGISTERS: [&str; 32] = [
    "x0", "x1", "x2", "x3", "x4", "x5", "x6", "x7", "x8", "x9", "x10", "x11", "x12", "x13", "x14",
    "x15", "x16", "x17", "x18", "x19", "x20", "x21", "x22", "x23", "x24", "x25", "x26", "x27",
    "x28", "x29", "x30", "x31",
];

// Those of the words of crate `csr_words` after pc, in their order.
pub const WORDS: [&str; 19] = [
    "mode", "elp", "ssp", "stvec", "senvcfg", "sscratch", "sepc", "scause", "stval", "satp",
    "mstatus", "medeleg", "mtvec", "menvcfg", "mscratch", "mepc", "mcause", "mtval", "mseccfg",
];
