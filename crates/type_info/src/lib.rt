// The kinds of SQLite's values, the kind and the affinity of a declared type.
// Translated from sqlx-sqlite 0.9.0, src/type_info.rs; affinity after SQLite's datatype page, section 3.1.
#![tactic(auto)]

ghost use Rattle.std.specs.Prelude.{◌≡◌, ◌<◌, length, Some};
ghost use Rattle.type_info.specs.Ascii.{lowercase, equals};
ghost use Rattle.type_info.specs.Kind.{kind_of};
ghost use Rattle.type_info.specs.Affinity.{contains_any_case, affinity_of};
ghost use Rattle.type_info.specs.Agreement.{kind_of_affinity};
ghost use Rattle.type_info.specs.DeclaredType.{declared_type, all_printable};
ghost use Rattle.type_info.specs.Codes.{code_of, Decodes};
ghost use Rattle.type_info.specs.Names.{name_of, affinity_name};

use refusal::Refusal;
use std::fmt;

pub mod utf8;

// The variants of the Rust, in its order: `as u64` gives a kind's code.
#[derive(Clone, Copy, Debug, PartialEq, Eq)]
pub enum DataType {
    Null,
    Integer,
    Float,
    Text,
    Blob,
    Numeric,
    Bool,
    Int4,
    Date,
    Time,
    Datetime,
}

// A code that no kind has.
#[derive(Clone, Copy, Debug, PartialEq, Eq)]
pub struct UnknownCode(pub u64);

// The five affinities of the datatype page.
#[derive(Clone, Copy, Debug, PartialEq, Eq)]
pub enum Affinity {
    Text,
    Numeric,
    Integer,
    Real,
    Blob,
}

// What the declared-type call answers.
#[derive(Clone, Copy, Debug, PartialEq, Eq)]
pub struct Declared {
    pub kind: DataType,
    pub affinity: Affinity,
}

impl TryFrom<u64> for DataType {
    type Error = UnknownCode;

    ghost try_from_gives = { Decodes };

    fn try_from(code: u64) -> Result<DataType, UnknownCode> {
        match code {
            0 => Ok(DataType::Null),
            1 => Ok(DataType::Integer),
            2 => Ok(DataType::Float),
            3 => Ok(DataType::Text),
            4 => Ok(DataType::Blob),
            5 => Ok(DataType::Numeric),
            6 => Ok(DataType::Bool),
            7 => Ok(DataType::Int4),
            8 => Ok(DataType::Date),
            9 => Ok(DataType::Time),
            10 => Ok(DataType::Datetime),
            _ => Err(UnknownCode(code)),
        }
    }
}

impl DataType {
    // Its place among the variants.
    pub fn code(self) -> u64
        ensures { result ≡ code_of self }
    {
        self as u64
    }

    // The variant's name, as an answer prints it.
    #[tactic(auto, unfolding(crate::specs::Names::name_of, crate::specs::Ascii::ascii))]
    pub fn name(self) -> &'static str
        ensures { result.now ≡ name_of self }
    {
        match self {
            DataType::Null => "Null",
            DataType::Integer => "Integer",
            DataType::Float => "Float",
            DataType::Text => "Text",
            DataType::Blob => "Blob",
            DataType::Numeric => "Numeric",
            DataType::Bool => "Bool",
            DataType::Int4 => "Int4",
            DataType::Date => "Date",
            DataType::Time => "Time",
            DataType::Datetime => "Datetime",
        }
    }

    // The kind of a declared type, in any letter case; Null where the Rust fails.
    // Beside its own words the Rust's order of tests is that of the affinity: `outside` of specs/Agreement.antt.
    #[tactic(auto, using(crate::proofs::Agreement::last_agree), unfolding(crate::specs::Kind::kind_of, crate::specs::Kind::from_str, crate::specs::Kind::first_arm, crate::specs::Kind::takes, crate::specs::Kind::arms, crate::specs::Ascii::ascii, crate::specs::Ascii::lowercase, crate::specs::Ascii::lower_byte))]
    pub fn from_str(s: &[u8]) -> DataType
        ensures { result ≡ kind_of s.now }
    {
        if is_word(s, b"int4") {
            DataType::Int4
        } else if is_word(s, b"int8") {
            DataType::Integer
        } else if is_word(s, b"boolean") || is_word(s, b"bool") {
            DataType::Bool
        } else if is_word(s, b"date") {
            DataType::Date
        } else if is_word(s, b"time") {
            DataType::Time
        } else if is_word(s, b"datetime") || is_word(s, b"timestamp") {
            DataType::Datetime
        } else {
            Affinity::of(s).kind()
        }
    }
}

impl fmt::Display for DataType {
    ghost output = { λ kind. Some (name_of kind) };

    fn fmt<W: fmt::Write>(&self, f: &mut fmt::Formatter<W>) -> fmt::Result {
        f.write_str(self.name())
    }
}

impl Affinity {
    // The name that the datatype page gives it.
    #[tactic(auto, unfolding(crate::specs::Names::affinity_name, crate::specs::Ascii::ascii))]
    pub fn name(self) -> &'static str
        ensures { result.now ≡ affinity_name self }
    {
        match self {
            Affinity::Text => "TEXT",
            Affinity::Numeric => "NUMERIC",
            Affinity::Integer => "INTEGER",
            Affinity::Real => "REAL",
            Affinity::Blob => "BLOB",
        }
    }

    // The kind that stands with it. No `From`: NUMERIC gives Null, which is no conversion of it.
    pub fn kind(self) -> DataType
        ensures { result ≡ kind_of_affinity self }
    {
        match self {
            Affinity::Text => DataType::Text,
            Affinity::Numeric => DataType::Null,
            Affinity::Integer => DataType::Integer,
            Affinity::Real => DataType::Float,
            Affinity::Blob => DataType::Blob,
        }
    }

    // The affinity of a declared type, by the page's rules in their order.
    #[tactic(auto, unfolding(crate::specs::Affinity::affinity_of, crate::specs::Affinity::first_rule, crate::specs::Affinity::rules, crate::specs::Ascii::ascii))]
    pub fn of(s: &[u8]) -> Affinity
        ensures { result ≡ affinity_of s.now }
    {
        if has_word(s, b"INT") {
            Self::Integer
        } else if has_word(s, b"CHAR") || has_word(s, b"CLOB") || has_word(s, b"TEXT") {
            Self::Text
        } else if has_word(s, b"BLOB") {
            Self::Blob
        } else if has_word(s, b"REAL") || has_word(s, b"FLOA") || has_word(s, b"DOUB") {
            Self::Real
        } else {
            Self::Numeric
        }
    }
}

impl fmt::Display for Affinity {
    ghost output = { λ affinity. Some (affinity_name affinity) };

    fn fmt<W: fmt::Write>(&self, out: &mut fmt::Formatter<W>) -> fmt::Result {
        out.write_str(self.name())
    }
}

// The declared-type call: the kind and the affinity, or the refusal.
#[tactic(auto, unfolding(crate::specs::DeclaredType::declared_type))]
pub fn declared_type(s: &[u8]) -> Result<Declared, Refusal>
    ensures { result ≡ declared_type s.now }
{
    if s.is_empty() || 64 < s.len() || !all_printable(s) {
        return Err(Refusal::NotDeclared);
    }
    Ok(Declared {
        kind: DataType::from_str(s),
        affinity: Affinity::of(s),
    })
}

// Whether every byte is one of 32 to 126.
#[tactic(auto, unfolding(crate::specs::DeclaredType::all_printable, crate::specs::All::all_of))]
pub fn all_printable(s: &[u8]) -> bool
    ensures { result ≡ all_printable s.now }
{
    s.iter().all(|b| matches!(b, b' '..=b'~'))
}

// Whether s is the word, in any letter case.
fn is_word(s: &[u8], word: &[u8]) -> bool
    ensures { result ≡ equals (lowercase s.now) (lowercase word.now) }
{
    s.eq_ignore_ascii_case(word)
}

// Whether s contains the word, in any letter case.
fn has_word(s: &[u8], word: &[u8]) -> bool
    requires { 0 < length word.now }
    ensures { result ≡ contains_any_case s.now word.now }
{
    s.windows(word.len())
        .any(|part| part.eq_ignore_ascii_case(word))
}
