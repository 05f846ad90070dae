// The families of instructions, by the numbers that hosts know them by.
ghost use Rattle.std.specs.Prelude.{◌≡◌, ◌≤◌, IfOk, IfErr};
ghost use Rattle.decode_numbers.specs.Family.{family_number};

#[derive(Clone, Copy, PartialEq, Eq)]
pub enum Family {
    Illegal = 0,
    Lui = 1,
    Auipc = 2,
    Jal = 3,
    Jalr = 4,
    Branch = 5,
    Load = 6,
    Store = 7,
    OpImm = 8,
    OpImm32 = 9,
    Op = 10,
    Op32 = 11,
    Fence = 12,
    Ecall = 13,
    Ebreak = 14,
    Sret = 15,
    Mret = 16,
    Csr = 17,
    ReadSsp = 18,
    Push = 19,
    Pop = 20,
    Swap = 21,
    MopR = 22,
    MopRr = 23,
}

// What a number from 24 on is told as.
#[derive(Clone, Copy)]
pub struct NoFamily;

impl From<Family> for u64 {
    ghost from_gives = { λ f n. n ≡ family_number f };

    fn from(f: Family) -> u64 {
        f as u64
    }
}

impl TryFrom<u64> for Family {
    type Error = NoFamily;

    ghost try_from_gives = { λ n r. IfOk r (λ f. family_number f ≡ n) × IfErr r (λ _. 24 ≤ n) };

    fn try_from(n: u64) -> Result<Family, NoFamily> {
        match n {
            0 => Ok(Family::Illegal),
            1 => Ok(Family::Lui),
            2 => Ok(Family::Auipc),
            3 => Ok(Family::Jal),
            4 => Ok(Family::Jalr),
            5 => Ok(Family::Branch),
            6 => Ok(Family::Load),
            7 => Ok(Family::Store),
            8 => Ok(Family::OpImm),
            9 => Ok(Family::OpImm32),
            10 => Ok(Family::Op),
            11 => Ok(Family::Op32),
            12 => Ok(Family::Fence),
            13 => Ok(Family::Ecall),
            14 => Ok(Family::Ebreak),
            15 => Ok(Family::Sret),
            16 => Ok(Family::Mret),
            17 => Ok(Family::Csr),
            18 => Ok(Family::ReadSsp),
            19 => Ok(Family::Push),
            20 => Ok(Family::Pop),
            21 => Ok(Family::Swap),
            22 => Ok(Family::MopR),
            23 => Ok(Family::MopRr),
            _ => Err(NoFamily),
        }
    }
}
