// What every layer shares: the instructions in their decoded form, how many bytes an access moves and what it is for, and the modes.
//
// The decoded form keeps every field of the word, also those that the hart ignores (FENCE's, a Zimop
// word's, aq and rl), so that a word can be written back from it. Immediates and offsets are the 64 bits
// of a signed number. Variants are tuples, and the comment above each names its parts in order.
#![tactic(auto)]

// How many bytes an access moves.
pub mod size;
// The numbers of modes.
mod mode_number;

// How many bytes an access moves: 1, 2, 4 or 8.
#[derive(Clone, Copy, PartialEq, Eq)]
pub enum Width {
    Byte,
    Half,
    Word,
    Double,
}

// What a memory instruction does at its address.
#[derive(Clone, Copy)]
pub enum Access {
    // width, whether the sign is extended
    Load(Width, bool),
    Store(Width),
    // shadow push and pop-check move eight bytes
    Push,
    Pop,
    // shadow swap: width, aq, rl
    Swap(Width, bool, bool),
}

// What an access is for, as the rules of translation tell them apart.
#[derive(Clone, Copy, PartialEq, Eq)]
pub enum Kind {
    Fetch,
    Load,
    Store,
    Push,
    Pop,
    Swap,
}

// Why an access is refused: its address is no multiple of its size, or what stands there, or its page, is not for it.
#[derive(Clone, Copy)]
pub enum Fault {
    Misaligned,
    Access,
    Page,
}

// The privilege modes.
#[derive(Clone, Copy, PartialEq, Eq)]
pub enum Mode {
    User,
    Supervisor,
    Machine,
}

// What mcause and mtval get of an exception. tval stands first, so that it lies where a place's address does (docs/SPEED.md, "Enums that stay in memory").
#[derive(Clone, Copy)]
pub struct Exception {
    pub tval: u64,
    // mcause's number and no enum: medeleg has a bit for each, and a host reads the number
    pub cause: u8,
}

// When a branch is taken.
#[derive(Clone, Copy, PartialEq, Eq)]
pub enum Condition {
    Equal,
    NotEqual,
    Less,
    NotLess,
    LessUnsigned,
    NotLessUnsigned,
}

// What OP and OP-IMM compute.
#[derive(Clone, Copy, PartialEq, Eq)]
pub enum Operation {
    Add,
    Sub,
    Sll,
    Slt,
    Sltu,
    Xor,
    Srl,
    Sra,
    Or,
    And,
    // the M extension
    Mul,
    Mulh,
    Mulhsu,
    Mulhu,
    Div,
    Divu,
    Rem,
    Remu,
    // from Zbb
    Min,
    Minu,
    Max,
    Maxu,
    // from Zbb, of one operand: the second does not count
    Clz,
    Ctz,
    Cpop,
}

// What OP-32 and OP-IMM-32 compute.
#[derive(Clone, Copy, PartialEq, Eq)]
pub enum WordOperation {
    Addw,
    Subw,
    Sllw,
    Srlw,
    Sraw,
    Mulw,
    Divw,
    Divuw,
    Remw,
    Remuw,
    Clzw,
    Ctzw,
    Cpopw,
}

// What a CSR instruction does with the CSR.
#[derive(Clone, Copy, PartialEq, Eq)]
pub enum CsrOperation {
    Write,
    Set,
    Clear,
}

// Where a CSR instruction takes its operand from: a register's number, or the number itself.
#[derive(Clone, Copy)]
pub enum CsrSource {
    Register(u8),
    Immediate(u8),
}

#[derive(Clone, Copy)]
pub enum Instruction {
    Illegal,
    // rd, immediate
    Lui(u8, u64),
    // rd, immediate
    Auipc(u8, u64),
    // rd, offset
    Jal(u8, u64),
    // rd, rs1, offset
    Jalr(u8, u8, u64),
    // condition, rs1, rs2, offset
    Branch(Condition, u8, u8, u64),
    // access, rd, rs1, rs2, offset; 0 for what the access does not have
    Memory(Access, u8, u8, u8, u64),
    // operation, rd, rs1, immediate
    OpImm(Operation, u8, u8, u64),
    // operation, rd, rs1, immediate
    OpImm32(WordOperation, u8, u8, u64),
    // operation, rd, rs1, rs2
    Op(Operation, u8, u8, u8),
    // operation, rd, rs1, rs2
    Op32(WordOperation, u8, u8, u8),
    // fm, pred, succ, rs1, rd
    Fence(u8, u8, u8, u8, u8),
    Ecall,
    Ebreak,
    Sret,
    Mret,
    // operation, source, rd, CSR
    Csr(CsrOperation, CsrSource, u8, u16),
    // rd, which is not 0
    ReadSsp(u8),
    // n, rd, rs1
    MopR(u8, u8, u8),
    // n, rd, rs1, rs2
    MopRr(u8, u8, u8, u8),
}
