// The fields that the manual's R format gives every instruction word. The word is taken apart once:
// whoever decodes works on the parts.
ghost use Rattle.std.specs.Prelude.{◌≡◌};
ghost use Rattle.word.specs.Field.{fields_of};

#[derive(Clone, Copy)]
pub struct Fields {
    pub rd: u8,
    pub funct3: u8,
    pub rs1: u8,
    pub rs2: u8,
    pub funct7: u8,
}

pub fn split(w: u32) -> Fields
    ensures { result ≡ fields_of w }
{
    Fields {
        rd: (w / 128 % 32) as u8,
        funct3: (w / 4096 % 8) as u8,
        rs1: (w / 32768 % 32) as u8,
        rs2: (w / 1048576 % 32) as u8,
        funct7: (w / 33554432 % 128) as u8,
    }
}
