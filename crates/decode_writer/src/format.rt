// A word of each format from its parts. A part that is wider than its place is cut: that the word reads as what was meant is
// for who calls to see.
ghost use Rattle.std.specs.Prelude.{◌≡◌};
ghost use Rattle.decode_writer.specs.Format.{word_from, word_i, word_s, word_b, word_u, word_j};

// Opcode, rd, funct3, rs1, and the twelve bits above them.
fn word(opcode: u64, rd: u64, funct3: u64, rs1: u64, high: u64) -> u32
    ensures { result ≡ word_from opcode rd funct3 rs1 high }
{
    let low = opcode % 128 + rd % 32 * 128 + funct3 % 8 * 4096 + rs1 % 32 * 32768;
    (low + high % 4096 * 1048576) as u32
}

// The R and I formats: the key is the twelve bits as the manual prints them with the operand 0, then funct3.
pub fn i(opcode: u64, key: u64, rd: u64, rs1: u64, operand: u64) -> u32
    ensures { result ≡ word_i opcode key rd rs1 operand }
{
    word(opcode, rd, key, rs1, key / 8 + operand % 4096)
}

pub fn s(opcode: u64, funct3: u64, rs1: u64, rs2: u64, offset: u64) -> u32
    ensures { result ≡ word_s opcode funct3 rs1 rs2 offset }
{
    word(
        opcode,
        offset,
        funct3,
        rs1,
        offset / 32 % 128 * 32 + rs2 % 32,
    )
}

pub fn b(opcode: u64, funct3: u64, rs1: u64, rs2: u64, offset: u64) -> u32
    ensures { result ≡ word_b opcode funct3 rs1 rs2 offset }
{
    let low = offset / 2 % 16 * 2 + offset / 2048 % 2;
    let high = offset / 4096 % 2 * 2048 + offset / 32 % 64 * 32 + rs2 % 32;
    word(opcode, low, funct3, rs1, high)
}

pub fn u(opcode: u64, rd: u64, immediate: u64) -> u32
    ensures { result ≡ word_u opcode rd immediate }
{
    word(
        opcode,
        rd,
        immediate / 4096,
        immediate / 32768,
        immediate / 1048576,
    )
}

pub fn j(opcode: u64, rd: u64, offset: u64) -> u32
    ensures { result ≡ word_j opcode rd offset }
{
    let high = offset / 1048576 % 2 * 2048 + offset / 2 % 1024 * 2 + offset / 2048 % 2;
    word(opcode, rd, offset / 4096, offset / 32768, high)
}
