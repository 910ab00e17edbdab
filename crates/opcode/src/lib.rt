// A listing's operations and P4 texts: a row is judged once, when it is read, and the walk matches on what was found.
// Translated from sqlx-sqlite 0.9.0, src/connection/explain.rs: the constants OP_, the arms of `explain` that look at P4,
// `affinity_to_type` and `opcode_to_type`.
#![tactic(auto)]

ghost use Rattle.std.specs.Prelude.{◌≡◌};
ghost use Rattle.model.specs.Operation.{operation_of};
ghost use Rattle.model.specs.Functions.{built_in, function_in, aggregate_of};
ghost use Rattle.model.specs.RegisterArms.{affinity_to_type};
ghost use Rattle.type_info.specs.Ascii.{starts_with};
ghost use Rattle.opcode.specs.Lookup.{found_in};
ghost use Rattle.opcode.specs.Opcode.{number, Numbered, IsOpcode, AreNamed, constant_kind};
ghost use Rattle.opcode.specs.P4.{IsFunction, IsAggregate, Judges, IsValueAt, IsAggregateAt};

use type_info::DataType;

// The arms of `explain`; one of several names is called by the first, or by what they share. A name without an arm is `Other`.
// Numbered, so that their order is that of the numbers: arms that are handled alike stand together.
#[derive(Clone, Copy, Debug, PartialEq, Eq, PartialOrd, Ord)]
pub enum Operation {
    Other = 0,
    Goto,
    Gosub,
    Branch,
    IsNull,
    NotNull,
    MustBeInt,
    If,
    Rewind,
    InitCoroutine,
    EndCoroutine,
    Return,
    Yield,
    Jump,
    Halt,
    IfPos,
    MakeRecord,
    Variable,
    HaltIfNull,
    Function,
    AggStep,
    AggFinal,
    Cast,
    CopyOne,
    Copy,
    Move,
    Integer,
    Null,
    Arithmetic,
    ConstantInteger,
    ConstantFloat,
    ConstantText,
    ConstantBlob,
    Column,
    RowData,
    Insert,
    Delete,
    OpenPseudo,
    OpenDup,
    OpenRead,
    OpenEphemeral,
    NullRow,
    ResultRow,
}

// The value of a function that is built in: `last_insert_rowid`, or a date or time as a text, a number of days or of seconds. A cell has it
// by its number, or 0 for none.
#[derive(Clone, Copy, Debug, PartialEq, Eq)]
pub enum FunctionValue {
    Rowid = 1,
    Text,
    Days,
    Seconds,
}

// A number that no function's value has.
#[derive(Clone, Copy, Debug, PartialEq, Eq)]
pub struct UnknownNumber(pub u64);

// What an aggregate gives. `Operand` is its operand: so does every text that names no aggregate.
#[derive(Clone, Copy, Debug, PartialEq, Eq)]
pub enum Aggregate {
    Operand,
    Integer,
    Real,
    Sum,
    OtherRow,
}

// What a P4 that is UTF-8 says: the function that it names, if it is built in, and what it gives as an aggregate.
#[derive(Clone, Copy, Debug, PartialEq, Eq)]
pub struct P4 {
    pub function: Option<FunctionValue>,
    pub aggregate: Aggregate,
}

// The names by their length, the frequent names of each first. A `match` on all of them would be plainer, but has too many arms for the prover.
static OF_TWO: [(&[u8], Operation); 8] = [
    (b"Ne", Operation::Branch),
    (b"Eq", Operation::Branch),
    (b"If", Operation::If),
    (b"Ge", Operation::Branch),
    (b"Le", Operation::Branch),
    (b"Lt", Operation::Branch),
    (b"Gt", Operation::Branch),
    (b"Or", Operation::Arithmetic),
];

static OF_THREE: [(&[u8], Operation); 3] = [
    (b"Add", Operation::Arithmetic),
    (b"Not", Operation::CopyOne),
    (b"And", Operation::Arithmetic),
];

static OF_FOUR: [(&[u8], Operation); 15] = [
    (b"Goto", Operation::Goto),
    (b"Next", Operation::Branch),
    (b"Copy", Operation::Copy),
    (b"Halt", Operation::Halt),
    (b"Null", Operation::Null),
    (b"Init", Operation::Goto),
    (b"Once", Operation::Branch),
    (b"Jump", Operation::Jump),
    (b"Blob", Operation::ConstantBlob),
    (b"Move", Operation::Move),
    (b"Real", Operation::ConstantFloat),
    (b"Cast", Operation::Cast),
    (b"Last", Operation::Rewind),
    (b"Sort", Operation::Rewind),
    (b"Prev", Operation::Branch),
];

static OF_FIVE: [(&[u8], Operation); 14] = [
    (b"Gosub", Operation::Gosub),
    (b"Rowid", Operation::ConstantInteger),
    (b"Yield", Operation::Yield),
    (b"IfPos", Operation::IfPos),
    (b"IdxGT", Operation::Branch),
    (b"SCopy", Operation::CopyOne),
    (b"Found", Operation::Branch),
    (b"IfNot", Operation::Branch),
    (b"VNext", Operation::Branch),
    (b"Count", Operation::ConstantInteger),
    (b"IdxLE", Operation::Branch),
    (b"IdxGE", Operation::Branch),
    (b"BitOr", Operation::Arithmetic),
    (b"IdxLT", Operation::Branch),
];

static OF_SIX: [(&[u8], Operation); 15] = [
    (b"Column", Operation::Column),
    (b"Rewind", Operation::Rewind),
    (b"Return", Operation::Return),
    (b"IsNull", Operation::IsNull),
    (b"Insert", Operation::Insert),
    (b"SeekGE", Operation::Branch),
    (b"Delete", Operation::Delete),
    (b"Filter", Operation::Branch),
    (b"Concat", Operation::Arithmetic),
    (b"BitAnd", Operation::Arithmetic),
    (b"Divide", Operation::Arithmetic),
    (b"SeekGT", Operation::Branch),
    (b"ElseEq", Operation::Branch),
    (b"SeekLE", Operation::Branch),
    (b"SeekLT", Operation::Branch),
];

static OF_SEVEN: [(&[u8], Operation); 10] = [
    (b"Integer", Operation::Integer),
    (b"String8", Operation::ConstantText),
    (b"AggStep", Operation::AggStep),
    (b"NullRow", Operation::NullRow),
    (b"OpenDup", Operation::OpenDup),
    (b"NotNull", Operation::NotNull),
    (b"IntCopy", Operation::CopyOne),
    (b"Program", Operation::Branch),
    (b"VFilter", Operation::Branch),
    (b"RowData", Operation::RowData),
];

static OF_EIGHT: [(&[u8], Operation); 13] = [
    (b"OpenRead", Operation::OpenRead),
    (b"Variable", Operation::Variable),
    (b"NewRowid", Operation::ConstantInteger),
    (b"Function", Operation::Function),
    (b"AggFinal", Operation::AggFinal),
    (b"IdxRowid", Operation::ConstantInteger),
    (b"AggValue", Operation::AggStep),
    (b"FkIfZero", Operation::Goto),
    (b"Subtract", Operation::Arithmetic),
    (b"Multiply", Operation::Arithmetic),
    (b"Sequence", Operation::ConstantInteger),
    (b"IfNoHope", Operation::Branch),
    (b"SeekScan", Operation::Branch),
];

static OF_NINE: [(&[u8], Operation); 12] = [
    (b"ResultRow", Operation::ResultRow),
    (b"IdxInsert", Operation::Insert),
    (b"OpenWrite", Operation::OpenRead),
    (b"SeekRowid", Operation::Branch),
    (b"MustBeInt", Operation::MustBeInt),
    (b"NotExists", Operation::Branch),
    (b"IfNotZero", Operation::Branch),
    (b"Remainder", Operation::Arithmetic),
    (b"IfNullRow", Operation::Branch),
    (b"ShiftLeft", Operation::Arithmetic),
    (b"IfNotOpen", Operation::Branch),
    (b"IfSmaller", Operation::Branch),
];

static OF_TEN: [(&[u8], Operation); 12] = [
    (b"MakeRecord", Operation::MakeRecord),
    (b"SorterOpen", Operation::OpenEphemeral),
    (b"OpenPseudo", Operation::OpenPseudo),
    (b"SorterSort", Operation::Rewind),
    (b"SorterData", Operation::RowData),
    (b"SorterNext", Operation::Branch),
    (b"HaltIfNull", Operation::HaltIfNull),
    (b"RowSetTest", Operation::Branch),
    (b"NoConflict", Operation::Branch),
    (b"RowSetRead", Operation::Branch),
    (b"ShiftRight", Operation::Arithmetic),
    (b"IncrVacuum", Operation::Branch),
];

static OF_ELEVEN: [(&[u8], Operation); 1] = [(b"OffsetLimit", Operation::ConstantInteger)];

static OF_TWELVE: [(&[u8], Operation); 5] = [
    (b"SorterInsert", Operation::Insert),
    (b"EndCoroutine", Operation::EndCoroutine),
    (b"DecrJumpZero", Operation::Branch),
    (b"SequenceTest", Operation::Branch),
    (b"IsNullOrType", Operation::Branch),
];

static OF_THIRTEEN: [(&[u8], Operation); 3] = [
    (b"InitCoroutine", Operation::InitCoroutine),
    (b"OpenEphemeral", Operation::OpenEphemeral),
    (b"OpenAutoindex", Operation::OpenEphemeral),
];

// The functions that are built in, by the length of their texts.
static FUNCTIONS_OF_8: [(&[u8], FunctionValue); 2] = [
    (b"date(-1)", FunctionValue::Text),
    (b"time(-1)", FunctionValue::Text),
];

static FUNCTIONS_OF_12: [(&[u8], FunctionValue); 2] = [
    (b"datetime(-1)", FunctionValue::Text),
    (b"strftime(-1)", FunctionValue::Text),
];

static FUNCTIONS_OF_13: [(&[u8], FunctionValue); 2] = [
    (b"julianday(-1)", FunctionValue::Days),
    (b"unixepoch(-1)", FunctionValue::Seconds),
];

static FUNCTIONS_OF_20: [(&[u8], FunctionValue); 1] = [(
    b"last_insert_rowid(0)",
    FunctionValue::Rowid,
)];

// What an aggregate's text starts with.
static AGGREGATES: [(&[u8], Aggregate); 10] = [
    (b"count(", Aggregate::Integer),
    (b"row_number(", Aggregate::Integer),
    (b"rank(", Aggregate::Integer),
    (b"dense_rank(", Aggregate::Integer),
    (b"ntile(", Aggregate::Integer),
    (b"percent_rank(", Aggregate::Real),
    (b"cume_dist", Aggregate::Real),
    (b"sum(", Aggregate::Sum),
    (b"lead(", Aggregate::OtherRow),
    (b"lag(", Aggregate::OtherRow),
];

// Whether the text starts with the word: byte by byte, since nearly all words differ in the first, where the library's method compares more.
fn starts_with(text: &[u8], word: &[u8]) -> bool
    ensures { result ≡ starts_with text.now word.now }
{
    if text.len() < word.len() {
        return false;
    }
    for i in 0..word.len() {
        if text[i] != word[i] {
            return false;
        }
    }
    true
}

// The value of the table's first text that `given` starts with. Among texts of its own length, it then equals that one.
fn find<A: Copy>(table: &[(&[u8], A)], given: &[u8]) -> Option<A>
    ensures { result ≡ found_in given.now table.now }
{
    for (text, value) in table {
        if starts_with(given, *text) {
            return Some(*value);
        }
    }
    None
}

// The arm that the name leads to.
pub fn opcode(name: &[u8]) -> Operation
    ensures { IsOpcode (operation_of name.now) result }
{
    find_named(name).unwrap_or(Operation::Other)
}

// The same, if there is one: a name is looked for among those of its length.
fn find_named(name: &[u8]) -> Option<Operation>
    ensures { AreNamed name.now result }
{
    match name.len() {
        2 => find(&OF_TWO, name),
        3 => find(&OF_THREE, name),
        4 => find(&OF_FOUR, name),
        5 => find(&OF_FIVE, name),
        6 => find(&OF_SIX, name),
        7 => find(&OF_SEVEN, name),
        8 => find(&OF_EIGHT, name),
        9 => find(&OF_NINE, name),
        10 => find(&OF_TEN, name),
        11 => find(&OF_ELEVEN, name),
        12 => find(&OF_TWELVE, name),
        13 => find(&OF_THIRTEEN, name),
        _ => None,
    }
}

impl Operation {
    // The number of the operation, by which a cell has it.
    pub fn number(self) -> u8
        ensures { result ≡ number self }
    {
        self as u8
    }
}

// The operation of a number in a cell; one past the last stands for none.
impl From<u8> for Operation {
    ghost from_gives = { Numbered };

    fn from(number: u8) -> Operation {
        match number {
            1 => Operation::Goto,
            2 => Operation::Gosub,
            3 => Operation::Branch,
            4 => Operation::IsNull,
            5 => Operation::NotNull,
            6 => Operation::MustBeInt,
            7 => Operation::If,
            8 => Operation::Rewind,
            9 => Operation::InitCoroutine,
            10 => Operation::EndCoroutine,
            11 => Operation::Return,
            12 => Operation::Yield,
            13 => Operation::Jump,
            14 => Operation::Halt,
            15 => Operation::IfPos,
            16 => Operation::MakeRecord,
            17 => Operation::Variable,
            18 => Operation::HaltIfNull,
            19 => Operation::Function,
            20 => Operation::AggStep,
            21 => Operation::AggFinal,
            22 => Operation::Cast,
            23 => Operation::CopyOne,
            24 => Operation::Copy,
            25 => Operation::Move,
            26 => Operation::Integer,
            27 => Operation::Null,
            28 => Operation::Arithmetic,
            29 => Operation::ConstantInteger,
            30 => Operation::ConstantFloat,
            31 => Operation::ConstantText,
            32 => Operation::ConstantBlob,
            33 => Operation::Column,
            34 => Operation::RowData,
            35 => Operation::Insert,
            36 => Operation::Delete,
            37 => Operation::OpenPseudo,
            38 => Operation::OpenDup,
            39 => Operation::OpenRead,
            40 => Operation::OpenEphemeral,
            41 => Operation::NullRow,
            42 => Operation::ResultRow,
            _ => Operation::Other,
        }
    }
}

// The function's value of a number in a cell.
impl TryFrom<u64> for FunctionValue {
    type Error = UnknownNumber;

    ghost try_from_gives = { IsValueAt };

    fn try_from(number: u64) -> Result<FunctionValue, UnknownNumber> {
        match number {
            1 => Ok(FunctionValue::Rowid),
            2 => Ok(FunctionValue::Text),
            3 => Ok(FunctionValue::Days),
            4 => Ok(FunctionValue::Seconds),
            _ => Err(UnknownNumber(number)),
        }
    }
}

// What the aggregate of a number in a cell gives; one past the last stands for the operand.
impl From<u64> for Aggregate {
    ghost from_gives = { IsAggregateAt };

    fn from(number: u64) -> Aggregate {
        match number {
            1 => Aggregate::Integer,
            2 => Aggregate::Real,
            3 => Aggregate::Sum,
            4 => Aggregate::OtherRow,
            _ => Aggregate::Operand,
        }
    }
}

// The kind of the value that a constant's arm stores.
pub fn opcode_to_type(operation: Operation) -> DataType
    ensures { result ≡ constant_kind operation }
{
    match operation {
        Operation::ConstantInteger => DataType::Integer,
        Operation::ConstantFloat => DataType::Float,
        Operation::ConstantText => DataType::Text,
        Operation::ConstantBlob => DataType::Blob,
        _ => DataType::Null,
    }
}

// The kind of an affinity's letter.
pub fn affinity_to_type(affinity: u8) -> DataType
    ensures { result ≡ affinity_to_type affinity }
{
    match affinity {
        0x41 => DataType::Blob,
        0x42 => DataType::Text,
        0x43 => DataType::Numeric,
        0x44 => DataType::Integer,
        0x45 => DataType::Float,
        _ => DataType::Null,
    }
}

// P4 as Function, AggStep, AggValue and AggFinal read it, if it is UTF-8. Most rows have an empty one, no function and no aggregate.
pub fn judge(p4: &[u8]) -> Option<P4>
    ensures { Judges result p4.now }
{
    if p4.is_empty() {
        return Some(P4 {
            function: None,
            aggregate: Aggregate::Operand,
        });
    }
    if !type_info::utf8::is_utf8(p4) {
        return None;
    }
    Some(P4 {
        function: function_in(p4),
        aggregate: aggregate_of(p4),
    })
}

// The value of the function that the text names.
fn function_in(text: &[u8]) -> Option<FunctionValue>
    ensures { IsFunction (function_in built_in text.now) result }
{
    match text.len() {
        8 => find(&FUNCTIONS_OF_8, text),
        12 => find(&FUNCTIONS_OF_12, text),
        13 => find(&FUNCTIONS_OF_13, text),
        20 => find(&FUNCTIONS_OF_20, text),
        _ => None,
    }
}

// What the text gives as an aggregate. Nearly no text begins with the first byte of one.
fn aggregate_of(text: &[u8]) -> Aggregate
    ensures { IsAggregate (aggregate_of text.now) result }
{
    match text {
        [b'c' | b'd' | b'l' | b'n' | b'p' | b'r' | b's', ..] => {
            find(&AGGREGATES, text).unwrap_or(Aggregate::Operand)
        }
        _ => Aggregate::Operand,
    }
}
