// From a record's bytes to its instruction, none where they are at fault (8).

#![tactic(auto)]

ghost use Rattle.std.specs.Prelude.{◌≡◌, ◌+◌, ◌≤◌, length, get_or, take, [], ◌∷◌, map};
ghost use Rattle.basics.specs.Lists.{all, sum};
ghost use Rattle.meaning.specs.Format.{number, operand_width, is_operand};
ghost use Rattle.meaning.specs.List.{lanes_fit, read_s, read_l, read_c, read_g, read_o, read_w, read_d, read_x, read_instruction};
ghost use Rattle.instructions.specs.Meant.{read_meant, number_named, read_copy, read_two, gathered};
ghost use Rattle.instructions.specs.Rows.{row_read};
ghost use Rattle.instructions.specs.Next.{instruction_at, end_at};

use meaning::Operand;

// An instruction, its fields in the document's order. A constant or an operand past the lanes is
// zero or nothing. A copy in O has no rb and stands by itself.
#[derive(Clone, Copy)]
pub enum Instruction {
    S {
        number: u8,
    },
    L {
        r: u8,
        k: u8,
        array: u8,
        index: u8,
    },
    C {
        r: u8,
        k: u8,
        c0: u32,
        c1: u32,
        c2: u32,
        c3: u32,
    },
    G {
        r: u8,
        k: u8,
        o0: Operand,
        o1: Operand,
        o2: Operand,
        o3: Operand,
    },
    Copy {
        r: u8,
        k: u8,
        ra: u8,
    },
    O {
        r: u8,
        operation: u8,
        k: u8,
        ra: u8,
        rb: u8,
    },
    W {
        r: u8,
        k: u8,
        array: u8,
        index: u8,
    },
    D {
        r: u8,
        lane: u8,
        array: u8,
        index: u8,
    },
    X {
        r: u8,
        lane: u8,
        variable: u8,
    },
}

// A register of the machine: its lanes, how many of them it has, and whether it is written.
#[derive(Clone, Copy)]
pub struct Register {
    pub lanes: [u32; 4],
    pub count: u8,
    pub current: bool,
}

// One field of a record, counted from its code.
fn field(bytes: &[u8], i: usize) -> u8
    ensures { result ≡ get_or bytes.now i 0 }
{
    slices::at_or(bytes, i, 0)
}

// "k not 2 or 4" is 8.
fn lanes_fit(k: u8) -> bool
    ensures { result ≡ lanes_fit k }
{
    matches!(k, 2 | 4)
}

fn read_s(bytes: &[u8]) -> Option<Instruction>
    ensures { read_meant result ≡ read_s bytes.now }
{
    if bytes.len() != 2 {
        return None;
    }
    Some(Instruction::S {
        number: field(bytes, 1),
    })
}

// What L and W say: k cells in a row, and the register that they go to or come from.
#[derive(Clone, Copy)]
struct Row {
    r: u8,
    k: u8,
    array: u8,
    index: u8,
}

fn read_row(bytes: &[u8]) -> Option<Row>
    ensures { result ≡ row_read bytes.now }
{
    let k = field(bytes, 2);
    if bytes.len() != 5 || !lanes_fit(k) {
        return None;
    }
    Some(Row {
        r: field(bytes, 1),
        k,
        array: field(bytes, 3),
        index: field(bytes, 4),
    })
}

fn read_l(bytes: &[u8]) -> Option<Instruction>
    ensures { read_meant result ≡ read_l bytes.now }
{
    let Row { r, k, array, index } = read_row(bytes)?;
    Some(Instruction::L { r, k, array, index })
}

fn read_w(bytes: &[u8]) -> Option<Instruction>
    ensures { read_meant result ≡ read_w bytes.now }
{
    let Row { r, k, array, index } = read_row(bytes)?;
    Some(Instruction::W { r, k, array, index })
}

fn read_d(bytes: &[u8]) -> Option<Instruction>
    ensures { read_meant result ≡ read_d bytes.now }
{
    if bytes.len() != 5 {
        return None;
    }
    Some(Instruction::D {
        r: field(bytes, 1),
        lane: field(bytes, 2),
        array: field(bytes, 3),
        index: field(bytes, 4),
    })
}

fn read_x(bytes: &[u8]) -> Option<Instruction>
    ensures { read_meant result ≡ read_x bytes.now }
{
    if bytes.len() != 4 {
        return None;
    }
    Some(Instruction::X {
        r: field(bytes, 1),
        lane: field(bytes, 2),
        variable: field(bytes, 3),
    })
}

// "ra, rb (copy: no rb)": a copy is one byte shorter.
fn read_copy(bytes: &[u8]) -> Option<Instruction>
    ensures { read_meant result ≡ read_copy bytes.now }
{
    let k = field(bytes, 3);
    if bytes.len() != 5 || !lanes_fit(k) {
        return None;
    }
    Some(Instruction::Copy {
        r: field(bytes, 1),
        k,
        ra: field(bytes, 4),
    })
}

fn read_two(bytes: &[u8]) -> Option<Instruction>
    ensures { read_meant result ≡ read_two bytes.now }
{
    let operation = field(bytes, 2);
    let k = field(bytes, 3);
    if bytes.len() != 6 || !lanes_fit(k) || operation > 7 {
        return None;
    }
    Some(Instruction::O {
        r: field(bytes, 1),
        operation,
        k,
        ra: field(bytes, 4),
        rb: field(bytes, 5),
    })
}

fn read_o(bytes: &[u8]) -> Option<Instruction>
    ensures { read_meant result ≡ read_o bytes.now }
{
    if field(bytes, 2) == 0 {
        return read_copy(bytes);
    }
    read_two(bytes)
}

// A constant takes 4 bytes.
fn constant(bytes: &[u8]) -> u32
    requires { 4 ≤ length bytes.now }
    ensures { result ≡ number (take 4 bytes.now) }
{
    u32::from_be_bytes([bytes[0], bytes[1], bytes[2], bytes[3]])
}

fn read_c(bytes: &[u8]) -> Option<Instruction>
    ensures { read_meant result ≡ read_c bytes.now }
{
    let r = field(bytes, 1);
    let k = field(bytes, 2);
    if k == 2 && bytes.len() == 11 {
        return Some(Instruction::C {
            r,
            k,
            c0: constant(&bytes[3..]),
            c1: constant(&bytes[7..]),
            c2: 0,
            c3: 0,
        });
    }
    if k == 4 && bytes.len() == 19 {
        return Some(Instruction::C {
            r,
            k,
            c0: constant(&bytes[3..]),
            c1: constant(&bytes[7..]),
            c2: constant(&bytes[11..]),
            c3: constant(&bytes[15..]),
        });
    }
    None
}

// How many bytes so many operands take.
fn widths(operands: &[Operand]) -> usize
    requires { length operands.now ≤ 4 }
    ensures exact { result ≡ sum (map operand_width operands.now) }
    ensures few { result ≤ 20 }
{
    operands
        .iter()
        .map(|operand| reader::operand_width(*operand))
        .sum()
}

fn all_operands(operands: &[Operand]) -> bool
    ensures { result ≡ all is_operand operands.now }
{
    operands.iter().all(|operand| reader::is_operand(*operand))
}

// G's operands, the first k of the four, are all there and fill the record.
fn gather(
    bytes: &[u8],
    k: u8,
    o0: Operand,
    o1: Operand,
    o2: Operand,
    o3: Operand,
) -> Option<Instruction>
    requires { k ≤ 4 }
    ensures { read_meant result ≡ gathered bytes.now (take k (o0 ∷ o1 ∷ o2 ∷ o3 ∷ [])) }
{
    let slots = [o0, o1, o2, o3];
    let operands = &slots[..usize::from(k)];
    if !all_operands(operands) || bytes.len() != 3 + widths(operands) {
        return None;
    }
    Some(Instruction::G {
        r: field(bytes, 1),
        k,
        o0,
        o1,
        o2,
        o3,
    })
}

fn read_g(bytes: &[u8]) -> Option<Instruction>
    ensures { read_meant result ≡ read_g bytes.now }
{
    let k = field(bytes, 2);
    let o0 = reader::operand_at(bytes, 3);
    let second = 3 + reader::operand_width(o0);
    let o1 = reader::operand_at(bytes, second);
    if k == 2 {
        return gather(bytes, 2, o0, o1, Operand::Nothing, Operand::Nothing);
    }
    if k == 4 {
        let third = second + reader::operand_width(o1);
        let o2 = reader::operand_at(bytes, third);
        let o3 = reader::operand_at(bytes, third + reader::operand_width(o2));
        return gather(bytes, 4, o0, o1, o2, o3);
    }
    None
}

// The instruction that a record says, by its code.
pub fn read_instruction(bytes: &[u8]) -> Option<Instruction>
    ensures { read_meant result ≡ read_instruction bytes.now }
{
    match field(bytes, 0) {
        0 => read_s(bytes),
        1 => read_l(bytes),
        2 => read_c(bytes),
        3 => read_g(bytes),
        4 => read_o(bytes),
        5 => read_w(bytes),
        6 => read_d(bytes),
        7 => read_x(bytes),
        _ => None,
    }
}

// The number of the statement that S names; 0 where none is named.
pub fn statement_number(instruction: Instruction) -> u8
    ensures { result ≡ number_named instruction }
{
    match instruction {
        Instruction::S { number } => number,
        _ => 0,
    }
}

// The instruction of the record that stands at a place of a list's bytes, none where the record is at
// fault, and where the next record stands.
#[derive(Clone, Copy)]
pub struct Next {
    pub instruction: Option<Instruction>,
    pub end: usize,
}

// "records, each led by its remaining length": the record's part of the bytes is handed on.
pub fn next_instruction(bytes: &[u8], start: usize) -> Next
    ensures { (read_meant result.instruction ≡ instruction_at bytes.now start) × (result.end ≡ end_at bytes.now start) }
{
    if bytes.len() <= start {
        return Next {
            instruction: None,
            end: start,
        };
    }
    let size = usize::from(bytes[start]);
    let from = start + 1;
    if bytes.len() - from < size {
        return Next {
            instruction: None,
            end: start,
        };
    }
    let end = from + size;
    let instruction = read_instruction(&bytes[from..end]);
    Next { instruction, end }
}
