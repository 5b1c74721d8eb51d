//! Keywords.

ghost use Rattle.std.specs.Prelude.{◌≡◌, map};
ghost use Rattle.std.specs.Str.{bytes_eq};
ghost use Rattle.fb_read.specs.Letters.{all_words, group};
ghost use Rattle.fb_read.specs.Words as spec;

use crate::blank::at;
use crate::token::Mark;

// The keywords by their first letters.
static A_WORDS: [(&str, Mark); 3] = [
    ("APPLICATION", Mark::Application),
    ("ALGORITHM", Mark::Algorithm),
    ("AND", Mark::And),
];

static B_WORDS: [(&str, Mark); 2] = [("BOOL", Mark::Bool), ("BY", Mark::By)];

static C_WORDS: [(&str, Mark); 1] = [("CASE", Mark::Case)];

static D_WORDS: [(&str, Mark); 3] = [
    ("DATA_CONNECTIONS", Mark::DataConnections),
    ("DINT", Mark::Dint),
    ("DO", Mark::Do),
];

static E_WORDS: [(&str, Mark); 22] = [
    ("END_FUNCTION_BLOCK", Mark::EndFunctionBlock),
    ("END_APPLICATION", Mark::EndApplication),
    ("EVENT_INPUT", Mark::EventInput),
    ("EVENT_OUTPUT", Mark::EventOutput),
    ("END_EVENT", Mark::EndEvent),
    ("END_VAR", Mark::EndVar),
    ("END_FBS", Mark::EndFbs),
    ("EVENT_CONNECTIONS", Mark::EventConnections),
    ("END_CONNECTIONS", Mark::EndConnections),
    ("EC_STATES", Mark::EcStates),
    ("END_STATES", Mark::EndStates),
    ("EC_TRANSITIONS", Mark::EcTransitions),
    ("END_TRANSITIONS", Mark::EndTransitions),
    ("END_ALGORITHM", Mark::EndAlgorithm),
    ("ELSIF", Mark::Elsif),
    ("ELSE", Mark::Else),
    ("END_IF", Mark::EndIf),
    ("END_CASE", Mark::EndCase),
    ("END_FOR", Mark::EndFor),
    ("END_WHILE", Mark::EndWhile),
    ("END_REPEAT", Mark::EndRepeat),
    ("EXIT", Mark::Exit),
];

static F_WORDS: [(&str, Mark); 4] = [
    ("FUNCTION_BLOCK", Mark::FunctionBlock),
    ("FBS", Mark::Fbs),
    ("FALSE", Mark::False),
    ("FOR", Mark::For),
];

static I_WORDS: [(&str, Mark); 2] = [("INT", Mark::Int), ("IF", Mark::If)];

static L_WORDS: [(&str, Mark); 1] = [("LINT", Mark::Lint)];

static M_WORDS: [(&str, Mark); 1] = [("MOD", Mark::Mod)];

static N_WORDS: [(&str, Mark); 1] = [("NOT", Mark::Not)];

static O_WORDS: [(&str, Mark); 2] = [("OF", Mark::Of), ("OR", Mark::Or)];

static R_WORDS: [(&str, Mark); 2] = [("REPEAT", Mark::Repeat), ("RETURN", Mark::Return)];

static S_WORDS: [(&str, Mark); 1] = [("SINT", Mark::Sint)];

static T_WORDS: [(&str, Mark); 4] = [
    ("TO", Mark::To),
    ("TIME", Mark::Time),
    ("TRUE", Mark::True),
    ("THEN", Mark::Then),
];

static U_WORDS: [(&str, Mark); 5] = [
    ("USINT", Mark::Usint),
    ("UINT", Mark::Uint),
    ("UDINT", Mark::Udint),
    ("ULINT", Mark::Ulint),
    ("UNTIL", Mark::Until),
];

static V_WORDS: [(&str, Mark); 3] = [
    ("VAR_INPUT", Mark::VarInput),
    ("VAR_OUTPUT", Mark::VarOutput),
    ("VAR", Mark::Var),
];

static W_WORDS: [(&str, Mark); 2] = [("WITH", Mark::With), ("WHILE", Mark::While)];

static X_WORDS: [(&str, Mark); 1] = [("XOR", Mark::Xor)];

/// Whether two words are the same. Most differ in their length, which is compared first.
#[tactic(auto, using(crate::proofs::lemmas::tokens::Keywords::differing))]
fn is_same(a: &[u8], b: &[u8]) -> bool
    ensures { result ≡ bytes_eq a.now b.now }
{
    if a.len() != b.len() {
        return false;
    }
    a == b
}

/// The mark of the first entry with this word.
fn look_up(mut table: &[(&str, Mark)], word: &[u8]) -> Option<Mark>
    ensures { result ≡ spec.look_up (map (λ k. (k.0.now, k.1)) table.entry.now) word.now }
{
    while let [entry, rest @ ..] = table {
        if is_same(word, entry.0.as_bytes()) {
            return Some(entry.1);
        }
        table = rest;
    }
    None
}

/// The keywords that begin with this letter.
fn words_with(letter: u8) -> &'static [(&'static str, Mark)]
    ensures { map (λ k. (k.0.now, k.1)) result.now ≡ group letter all_words }
{
    match letter {
        b'A' => &A_WORDS,
        b'B' => &B_WORDS,
        b'C' => &C_WORDS,
        b'D' => &D_WORDS,
        b'E' => &E_WORDS,
        b'F' => &F_WORDS,
        b'I' => &I_WORDS,
        b'L' => &L_WORDS,
        b'M' => &M_WORDS,
        b'N' => &N_WORDS,
        b'O' => &O_WORDS,
        b'R' => &R_WORDS,
        b'S' => &S_WORDS,
        b'T' => &T_WORDS,
        b'U' => &U_WORDS,
        b'V' => &V_WORDS,
        b'W' => &W_WORDS,
        b'X' => &X_WORDS,
        _ => &[],
    }
}

/// The keyword that a word in upper case is.
pub fn keyword(word: &[u8]) -> Option<Mark>
    ensures { result ≡ spec.keyword word.now }
{
    look_up(words_with(at(word, 0)), word)
}
