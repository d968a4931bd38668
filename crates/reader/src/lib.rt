// From lent bytes to a block by value: "short (2), 1, stated length (2), header counts (3), array
// lengths, then record by record 4 before 5, then bytes left over (4)".

#![tactic(auto)]

ghost use Rattle.std.specs.Prelude.{◌≡◌, ◌+◌, ◌*◌, ◌≤◌, ◌<◌, eqb, length, get_or, take, drop};
ghost use Rattle.basics.specs.Choice.{pick};
ghost use Rattle.meaning.specs.declared.Place.TheVariants.{Cell};
ghost use Rattle.meaning.specs.declared.Operand.TheVariants.{Nothing};
ghost use Rattle.meaning.specs.Numbers.{map_answer};
ghost use Rattle.meaning.specs.Refusals.{answered};
ghost use Rattle.meaning.specs.Block.{declared, declares_place, declares_operand, declares_statement};
ghost use Rattle.meaning.specs.Format.{place_width, operand_width, statement_width, is_operand, well_formed, counts_fit, length_fits};
ghost use Rattle.meaning.specs.Format.{read_operand, read_statement, whole, read_record, read_lengths, read_block, in_memory};
ghost use Rattle.meaning.specs.Calls.{read_block_call};
ghost use Rattle.reader.specs.Answers.{answer, refusal, lengths_read, statements_of, block_behind, no_lengths, no_statements, counted};
ghost use Rattle.reader.specs.Next.{next_length, next_statement};

use meaning::{Block, Operand, Place, Refusal, Statement};

// Reading an operand.

// "Constant: 0 and 4 bytes. Variable: 1 and its number. Cell: 2, array, index." Nothing where the
// bytes end early or the kind is unknown.
#[tactic(auto, using(crate::proofs::Operands::constant, crate::proofs::Operands::variable, crate::proofs::Operands::cell, crate::proofs::Operands::missing))]
pub fn read_operand(bytes: &[u8]) -> Operand
    ensures { result ≡ read_operand bytes.now }
{
    match bytes {
        [0, first, second, third, fourth, ..] => {
            Operand::Constant(u32::from_be_bytes([*first, *second, *third, *fourth]))
        }
        [1, variable, ..] => Operand::Held(Place::Variable(*variable)),
        [2, array, index, ..] => Operand::Held(Place::Cell(*array, *index)),
        _ => Operand::Nothing,
    }
}

// The operand that stands at a place of the bytes, past their end too.
pub fn operand_at(bytes: &[u8], start: usize) -> Operand
    ensures { result ≡ read_operand (drop start bytes.now) }
{
    read_operand(bytes.get(start..).unwrap_or(&[]))
}

// How many bytes a place, an operand and a statement take.
pub fn place_width(place: Place) -> usize
    ensures { result ≡ place_width place }
{
    match place {
        Place::Variable(_) => 2,
        Place::Cell(_, _) => 3,
    }
}

pub fn operand_width(operand: Operand) -> usize
    ensures { result ≡ operand_width operand }
{
    match operand {
        Operand::Nothing => 0,
        Operand::Constant(_) => 5,
        Operand::Held(place) => place_width(place),
    }
}

pub fn statement_width(statement: Statement) -> usize
    ensures { result ≡ statement_width statement }
{
    1 + place_width(statement.destination)
        + operand_width(statement.left)
        + operand_width(statement.right)
}

// Reading a record.

pub fn is_operand(operand: Operand) -> bool
    ensures { result ≡ is_operand operand }
{
    matches!(operand, Operand::Constant(_) | Operand::Held(_))
}

// An operation up to 7, a left operand, and a right one except for copy.
pub fn well_formed(statement: Statement) -> bool
    ensures { result ≡ well_formed statement }
{
    statement.operation <= 7
        && is_operand(statement.left)
        && is_operand(statement.right) != (statement.operation == 0)
}

// "except for copy, right": the operation stands in front of the bytes.
fn right_at(bytes: &[u8], operation: u8, start: usize) -> Operand
    ensures { result ≡ pick (eqb operation 0) Nothing (read_operand (drop start bytes.now)) }
{
    if operation == 0 {
        Operand::Nothing
    } else {
        operand_at(bytes, start)
    }
}

// The statement that a record with this operation and destination says, where it says one and no
// byte more.
fn read_behind(bytes: &[u8], operation: u8, destination: Place) -> Option<Statement>
    requires { operation ≡ get_or bytes.now 0 0 }
    ensures { result ≡ whole bytes.now (read_statement bytes.now destination) }
{
    let behind = 1 + place_width(destination);
    let left = operand_at(bytes, behind);
    let right = right_at(bytes, operation, behind + operand_width(left));
    let statement = Statement {
        operation,
        destination,
        left,
        right,
    };
    (well_formed(statement) && bytes.len() == statement_width(statement)).then_some(statement)
}

// "Each statement begins with one byte that counts the rest of its record": here is that rest. A
// constant as destination is no place.
pub fn read_record(bytes: &[u8]) -> Option<Statement>
    ensures { result ≡ read_record bytes.now }
{
    let operation = *bytes.first()?;
    match read_operand(&bytes[1..]) {
        Operand::Held(place) => read_behind(bytes, operation, place),
        Operand::Constant(_) | Operand::Nothing => None,
    }
}

// What is declared.

// "variable, array or index not declared" is 5. Of the lengths, the first so many are declared: a cell
// is where its array is one of those and its index is below that array's length.
pub fn declares_place(place: Place, variables: u8, arrays: u8, lengths: &[u16; 8]) -> bool
    ensures { result ≡ declares_place variables (take arrays lengths.now) place }
{
    match place {
        Place::Variable(variable) => variable < variables,
        Place::Cell(array, index) => {
            array < arrays
                && u16::from(index) < lengths.get(usize::from(array)).copied().unwrap_or(0)
        }
    }
}

pub fn declares_operand(operand: Operand, variables: u8, arrays: u8, lengths: &[u16; 8]) -> bool
    ensures { result ≡ declares_operand variables (take arrays lengths.now) operand }
{
    match operand {
        Operand::Nothing | Operand::Constant(_) => true,
        Operand::Held(place) => declares_place(place, variables, arrays, lengths),
    }
}

pub fn declares_statement(
    statement: Statement,
    variables: u8,
    arrays: u8,
    lengths: &[u16; 8],
) -> bool
    ensures { result ≡ declares_statement variables (take arrays lengths.now) statement }
{
    declares_place(statement.destination, variables, arrays, lengths)
        && declares_operand(statement.left, variables, arrays, lengths)
        && declares_operand(statement.right, variables, arrays, lengths)
}

// Reading a block.

// What reading a block returns: zeros beside a refusal. `read_block` promises these zeros, so it stays a number with a
// block; `parse_block` answers by a Result.
#[derive(Clone, Copy)]
pub struct BlockRead {
    pub status: u8,
    pub block: Block,
}

// "variables; live-out count; arrays; statements (1 byte each)"
#[derive(Clone, Copy)]
struct Header {
    variables: u8,
    live: u8,
    arrays: u8,
    statements: u8,
}

#[tactic(auto, unfolding(crate::specs::Answers::refusal, crate::specs::Answers::no_lengths, crate::specs::Answers::no_statements))]
fn refuse(status: u8) -> BlockRead
    ensures { result ≡ refusal status }
{
    let block = Block {
        variables: 0,
        live: 0,
        arrays: 0,
        count: 0,
        lengths: [0; 8],
        statements: [Statement::BLANK; 64],
    };
    BlockRead { status, block }
}

// "length 0" and a length over its limit are 3
fn length_fits(size: u16) -> bool
    ensures { result ≡ length_fits size }
{
    (1..=256).contains(&size)
}

// "4 if the bytes end, else 3"
fn read_length(bytes: &[u8], start: usize) -> Result<u16, Refusal>
    requires { start < 256 }
    ensures { answered result ≡ next_length (drop start bytes.now) }
{
    if bytes.len() < start + 2 {
        return Err(Refusal::Form);
    }
    let size = u16::from_be_bytes([bytes[start], bytes[start + 1]]);
    if length_fits(size) {
        Ok(size)
    } else {
        Err(Refusal::Limits)
    }
}

// "each array's length (2 bytes)", array by array
fn read_lengths(bytes: &[u8], arrays: u8) -> Result<[u16; 8], Refusal>
    requires { arrays ≤ 8 }
    ensures { answered result ≡ lengths_read no_lengths 0 (read_lengths arrays bytes.now) }
{
    let mut lengths = [0u16; 8];
    for i in 0..usize::from(arrays) {
        lengths[i] = read_length(bytes, 2 * i)?;
    }
    Ok(lengths)
}

// The record is whole before its names are looked at: "4 before 5". Beside the statement is where the
// next record starts.
fn read_next(
    bytes: &[u8],
    start: usize,
    variables: u8,
    arrays: u8,
    lengths: &[u16; 8],
) -> Result<(Statement, usize), Refusal>
    ensures { answered result ≡ next_statement variables (take arrays lengths.now) start (drop start bytes.now) }
{
    let size = *bytes.get(start).ok_or(Refusal::Form)?;
    let from = start + 1;
    let next = from + usize::from(size);
    let record = bytes.get(from..next).ok_or(Refusal::Form)?;
    let statement = read_record(record).ok_or(Refusal::Form)?;
    if declares_statement(statement, variables, arrays, lengths) {
        Ok((statement, next))
    } else {
        Err(Refusal::Undeclared)
    }
}

// The statements, "record by record", and "then bytes left over (4)".
fn read_statements(bytes: &[u8], header: Header, lengths: &[u16; 8]) -> Result<Block, Refusal>
    requires { header.statements ≤ 64 }
    ensures { answered result ≡ block_behind header lengths.now no_statements 0 (statements_of header lengths.now bytes.now) }
{
    let mut statements = [Statement::BLANK; 64];
    let mut start = 0;
    for i in 0..usize::from(header.statements) {
        let (statement, behind) = read_next(
            bytes,
            start,
            header.variables,
            header.arrays,
            lengths,
        )?;
        statements[i] = statement;
        start = behind;
    }
    if start < bytes.len() {
        return Err(Refusal::Form);
    }
    Ok(Block {
        variables: header.variables,
        live: header.live,
        arrays: header.arrays,
        count: header.statements,
        lengths: *lengths,
        statements,
    })
}

// "a count .. over its limit .. or live-out above variables" is 3
fn counts_fit(header: Header) -> bool
    ensures { result ≡ counts_fit header.variables header.live header.arrays header.statements }
{
    header.variables <= 32
        && header.live <= header.variables
        && header.arrays <= 8
        && header.statements <= 64
}

// What follows the stated length: the counts, and what they announce.
fn read_counted(bytes: &[u8]) -> Result<Block, Refusal>
    requires { 7 ≤ length bytes.now }
    ensures { answered result ≡ counted bytes.now }
{
    let header = Header {
        variables: bytes[3],
        live: bytes[4],
        arrays: bytes[5],
        statements: bytes[6],
    };
    if !counts_fit(header) {
        return Err(Refusal::Limits);
    }
    let lengths = read_lengths(&bytes[7..], header.arrays)?;
    let start = 7 + 2 * usize::from(header.arrays);
    read_statements(&bytes[start..], header, &lengths)
}

// The order of the refusals is that of the tests.
pub fn parse_block(bytes: &[u8]) -> Result<Block, Refusal>
    ensures in_slots { answered result ≡ map_answer in_memory (read_block bytes.now) }
    ensures declares { map_answer declared (answered result) ≡ read_block bytes.now }
{
    if bytes.len() < 7 {
        return Err(Refusal::Length);
    }
    if bytes[0] != 1 {
        return Err(Refusal::Version);
    }
    let stated = u16::from_be_bytes([bytes[1], bytes[2]]);
    if usize::from(stated) != bytes.len() {
        return Err(Refusal::Length);
    }
    read_counted(bytes)
}

// "A refusal returns zeros beside its number."
pub fn read_block(bytes: &[u8]) -> BlockRead
    ensures { answer result ≡ read_block_call bytes.now }
{
    match parse_block(bytes) {
        Ok(block) => BlockRead { status: 0, block },
        Err(refusal) => refuse(refusal.number()),
    }
}
