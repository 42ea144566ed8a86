//! The canonical text of a declaration.
ghost use Rattle.std.specs.Prelude.{◌≡◌, ◌<◌, ◌≤◌, ◌++◌, ◌∷◌, ℕ, length, slice_range, Some, OnOk, IfOk};
ghost use Rattle.ffi3_type_spec.specs.Tree.{double, trees_of};
ghost use Rattle.ffi3_type_spec.specs.Signature.{SignatureHasNoFault};
ghost use Rattle.ffi3_types.specs.TreeOf.{tree_of};
ghost use Rattle.ffi3_cdecl_spec.specs.Tokens.{complex_word, long_word, type_word, open_square, number, close_square, comma, semicolon};
ghost use Rattle.ffi3_cdecl_spec.specs.Canonical.{hugs, holds, spelled, scalar_word, count_tokens, first_count_tokens, member_name, type_tokens, first_type_tokens, member_tokens, end_tokens, parameter_tokens, declaration_text, FixesAll, IsIdentifier};
ghost use Rattle.ffi3_cdecl_spec.specs.Prototype.{behind_commas, fixed_tokens, prototype_text};
ghost use Rattle.ffi3_cdecl_spec.specs.Reading.{IsReading, reads};
ghost use Rattle.ffi3_cdecl.specs.TokenOf.{token_of, scalar_of};
ghost use Rattle.ffi3_cdecl.specs.Going.{Wrote, blank_before};

use crate::token::{Sign, Token, TypeWord};
use ffi3_types::{Bytes, FfiType, Fields, NoMemory, Sig};
use std::alloc::Global;

/// Whether no blank stands in front of the token.
fn hugs(token: &Token<'_>) -> bool
    ensures { result ≡ hugs (token_of token.now) }
{
    match token {
        Token::OpenRound | Token::CloseRound => true,
        Token::OpenSquare | Token::CloseSquare => true,
        Token::Comma | Token::Semicolon => true,
        _ => false,
    }
}

/// Whether no blank stands behind the token.
fn holds(token: &Token<'_>) -> bool
    ensures { result ≡ holds (token_of token.now) }
{
    match token {
        Token::OpenRound | Token::OpenSquare => true,
        _ => false,
    }
}

/// The word that names the type.
fn type_name(word: TypeWord) -> &'static str
    ensures { result.now ≡ scalar_word (scalar_of word) }
{
    match word {
        TypeWord::U8 => "uint8_t",
        TypeWord::S8 => "int8_t",
        TypeWord::U16 => "uint16_t",
        TypeWord::S16 => "int16_t",
        TypeWord::U32 => "uint32_t",
        TypeWord::S32 => "int32_t",
        TypeWord::U64 => "uint64_t",
        TypeWord::S64 => "int64_t",
        TypeWord::Float => "float",
        TypeWord::Double => "double",
    }
}

/// The bytes of a token at the end of a text.
fn spell(alloc: Global, token: Token<'_>, text: &mut Bytes) -> Result<(), NoMemory>
    ensures { OnOk result (text.new ≡ text.old ++ spelled (token_of token.entry)) }
{
    let word = match token {
        Token::Name(name) => return text.extend(name),
        Token::Number(n) => return text.extend(format!(in alloc; "{n}")?.as_bytes()),
        Token::Type(word) => type_name(word),
        Token::Sign(Sign::Signed) => "signed",
        Token::Sign(Sign::Unsigned) => "unsigned",
        Token::Const => "const",
        Token::Short => "short",
        Token::Int => "int",
        Token::Long => "long",
        Token::Int128 => "__int128",
        Token::Char(_) => "char",
        Token::Void => "void",
        Token::Struct => "struct",
        Token::Union => "union",
        Token::Enum => "enum",
        Token::Complex => "_Complex",
        Token::Attribute => "__attribute__",
        Token::Keyword => "while",
        Token::OpenRound => "(",
        Token::CloseRound => ")",
        Token::OpenCurly => "{",
        Token::CloseCurly => "}",
        Token::OpenSquare => "[",
        Token::CloseSquare => "]",
        Token::Comma => ",",
        Token::Semicolon => ";",
        Token::Star => "*",
        Token::Dots => "...",
    };
    text.extend(word.as_bytes())
}

/// A blank at the end of a text, unless it is tight there.
fn space(text: &mut Bytes, tight: bool) -> Result<(), NoMemory>
    ensures { OnOk result (text.new ≡ text.old ++ blank_before tight) }
{
    if tight {
        return Ok(());
    }
    text.push(b' ')
}

/// A text that goes on token by token.
#[derive(Drop)]
pub struct Writer {
    text: Bytes,
    /// Whether no blank stands in front of the next token.
    tight: bool,
}

impl Writer {
    /// One token more.
    fn put(&mut self, alloc: Global, token: Token<'_>) -> Result<(), NoMemory>
        ensures { OnOk result (Wrote self.old self.new (λ rest. token_of token.entry ∷ rest)) }
    {
        let tight = self.tight || hugs(&token);
        space(&mut self.text, tight)?;
        self.tight = holds(&token);
        spell(alloc, token, &mut self.text)
    }

    /// Two tokens more.
    fn put_two(
        &mut self,
        alloc: Global,
        first: Token<'_>,
        second: Token<'_>,
    ) -> Result<(), NoMemory>
        ensures { OnOk result (Wrote self.old self.new (λ rest. token_of first.entry ∷ token_of second.entry ∷ rest)) }
    {
        self.put(alloc, first)?;
        self.put(alloc, second)
    }

    /// A long double, whose format is left to the target.
    fn put_long_double(&mut self, alloc: Global) -> Result<(), NoMemory>
        ensures { OnOk result (Wrote self.old self.new (λ rest. long_word ∷ type_word double ∷ rest)) }
    {
        self.put_two(alloc, Token::Long, Token::Type(TypeWord::Double))
    }

    /// A complex one.
    fn put_long_complex(&mut self, alloc: Global) -> Result<(), NoMemory>
        ensures { OnOk result (Wrote self.old self.new (λ rest. long_word ∷ type_word double ∷ complex_word ∷ rest)) }
    {
        self.put_long_double(alloc)?;
        self.put(alloc, Token::Complex)
    }

    /// One count of an array.
    fn put_count(&mut self, alloc: Global, count: u32) -> Result<(), NoMemory>
        ensures { OnOk result (Wrote self.old self.new (λ rest. open_square ∷ number count ∷ close_square ∷ rest)) }
    {
        self.put(alloc, Token::OpenSquare)?;
        self.put_two(alloc, Token::Number(count as u64), Token::CloseSquare)
    }

    /// The counts of an array, the outermost first.
    #[cycle(put_counts)]
    fn put_counts(&mut self, alloc: Global, ty: &FfiType) -> Result<(), NoMemory>
        ensures { OnOk result (Wrote self.old self.new (count_tokens (tree_of ty.now))) }
    {
        match ty {
            FfiType::Array(fields, count) => {
                self.put_count(alloc, *count)?;
                self.put_first_counts(alloc, fields)
            }
            _ => Ok(()),
        }
    }

    /// Those of the first type, if there is one.
    #[cycle(put_counts)]
    fn put_first_counts(&mut self, alloc: Global, fields: &Fields) -> Result<(), NoMemory>
        ensures { OnOk result (Wrote self.old self.new (first_count_tokens (trees_of fields.now))) }
    {
        if fields.len() == 0 {
            return Ok(());
        }
        self.put_counts(alloc, fields.get(0))
    }

    /// A type, and of an array what it is of.
    #[cycle(put_type)]
    fn put_type(&mut self, alloc: Global, ty: &FfiType) -> Result<(), NoMemory>
        ensures { OnOk result (Wrote self.old self.new (type_tokens (tree_of ty.now))) }
    {
        match ty {
            FfiType::Void => self.put(alloc, Token::Void),
            FfiType::U8 => self.put(alloc, Token::Type(TypeWord::U8)),
            FfiType::S8 => self.put(alloc, Token::Type(TypeWord::S8)),
            FfiType::U16 => self.put(alloc, Token::Type(TypeWord::U16)),
            FfiType::S16 => self.put(alloc, Token::Type(TypeWord::S16)),
            FfiType::U32 => self.put(alloc, Token::Type(TypeWord::U32)),
            FfiType::S32 => self.put(alloc, Token::Type(TypeWord::S32)),
            FfiType::U64 => self.put(alloc, Token::Type(TypeWord::U64)),
            FfiType::S64 => self.put(alloc, Token::Type(TypeWord::S64)),
            FfiType::U128 => self.put_two(alloc, Token::Sign(Sign::Unsigned), Token::Int128),
            FfiType::S128 => self.put(alloc, Token::Int128),
            FfiType::Float => self.put(alloc, Token::Type(TypeWord::Float)),
            FfiType::Double => self.put(alloc, Token::Type(TypeWord::Double)),
            FfiType::Pointer => self.put_two(alloc, Token::Void, Token::Star),
            FfiType::Struct(fields) => {
                self.put_two(alloc, Token::Struct, Token::OpenCurly)?;
                self.put_members(alloc, fields)?;
                self.put(alloc, Token::CloseCurly)
            }
            FfiType::Array(fields, _) => self.put_first_type(alloc, fields),
            FfiType::LongDouble => self.put_long_double(alloc),
            FfiType::Complex => self.put_long_complex(alloc),
            FfiType::Vector => Ok(()),
            FfiType::X87 | FfiType::Binary128 => Ok(()),
        }
    }

    /// The first type, if there is one.
    #[cycle(put_type)]
    fn put_first_type(&mut self, alloc: Global, fields: &Fields) -> Result<(), NoMemory>
        ensures { OnOk result (Wrote self.old self.new (first_type_tokens (trees_of fields.now))) }
    {
        if fields.len() == 0 {
            return Ok(());
        }
        self.put_type(alloc, fields.get(0))
    }

    /// A struct's members, by the names m0, m1 and so on.
    #[cycle(put_type)]
    fn put_members(&mut self, alloc: Global, fields: &Fields) -> Result<(), NoMemory>
        ensures { OnOk result (Wrote self.old self.new (member_tokens 0 (trees_of fields.now))) }
    {
        for i in 0..fields.len() {
            self.put_member(alloc, i, fields.get(i))?;
        }
        Ok(())
    }

    /// Member number `i`.
    #[cycle(put_type)]
    fn put_member(&mut self, alloc: Global, i: usize, ty: &FfiType) -> Result<(), NoMemory>
        ensures { OnOk result (Wrote self.old self.new (λ rest. type_tokens (tree_of ty.now) (member_name i ∷ count_tokens (tree_of ty.now) (semicolon ∷ rest)))) }
    {
        self.put_type(alloc, ty)?;
        let name = format!(in alloc; "m{i}")?;
        self.put(alloc, Token::Name(name.as_bytes()))?;
        self.put_counts(alloc, ty)?;
        self.put(alloc, Token::Semicolon)
    }

    /// The end of the parameters.
    fn put_end(&mut self, alloc: Global, variadic: bool) -> Result<(), NoMemory>
        ensures { OnOk result (Wrote self.old self.new (end_tokens variadic)) }
    {
        if !variadic {
            return self.put(alloc, Token::CloseRound);
        }
        self.put_two(alloc, Token::Comma, Token::Dots)?;
        self.put(alloc, Token::CloseRound)
    }

    /// The parameters, or `void` where there are none.
    fn put_parameters(
        &mut self,
        alloc: Global,
        args: &Fields,
        variadic: bool,
    ) -> Result<(), NoMemory>
        ensures { OnOk result (Wrote self.old self.new (parameter_tokens args.now variadic)) }
    {
        if args.len() == 0 {
            return self.put_two(alloc, Token::Void, Token::CloseRound);
        }
        self.put_type(alloc, args.get(0))?;
        for i in 1..args.len() {
            self.put_parameter(alloc, args.get(i))?;
        }
        self.put_end(alloc, variadic)
    }

    /// The parameters from one number on and below another, each behind another one.
    fn put_more(
        &mut self,
        alloc: Global,
        args: &Fields,
        start: usize,
        end: usize,
    ) -> Result<(), NoMemory>
        requires rises { start ≤ end }
        requires within { end ≤ length args.now }
        ensures { OnOk result (Wrote self.old self.new (behind_commas (slice_range args.now start end))) }
    {
        for i in start..end {
            self.put_parameter(alloc, args.get(i))?;
        }
        Ok(())
    }

    /// The parameters, with dots behind so many of them.
    fn put_fixed(&mut self, alloc: Global, args: &Fields, fixed: u32) -> Result<(), NoMemory>
        requires some { 0 < fixed }
        requires within { fixed ≤ length args.now }
        ensures { OnOk result (Wrote self.old self.new (fixed_tokens args.now (Some fixed))) }
    {
        let fixed = fixed as usize;
        self.put_type(alloc, args.get(0))?;
        self.put_more(alloc, args, 1, fixed)?;
        self.put_two(alloc, Token::Comma, Token::Dots)?;
        self.put_more(alloc, args, fixed, args.len())?;
        self.put(alloc, Token::CloseRound)
    }

    /// The parameters, with dots behind the fixed ones, where others may follow these.
    fn put_list(&mut self, alloc: Global, args: &Fields, fixed: Option<u32>) -> Result<(), NoMemory>
        requires { (n : ℕ) → fixed ≡ Some n → (0 < n) × (n ≤ length args.now) }
        ensures { OnOk result (Wrote self.old self.new (fixed_tokens args.now fixed)) }
    {
        match fixed {
            Some(fixed) => self.put_fixed(alloc, args, fixed),
            None => self.put_parameters(alloc, args, false),
        }
    }

    /// A parameter behind another one.
    fn put_parameter(&mut self, alloc: Global, ty: &FfiType) -> Result<(), NoMemory>
        ensures { OnOk result (Wrote self.old self.new (λ rest. comma ∷ type_tokens (tree_of ty.now) rest)) }
    {
        self.put(alloc, Token::Comma)?;
        self.put_type(alloc, ty)
    }
}

/// The canonical text of a function's declaration, as `int32_t f(void *, ...);` (C11 6.7.6.3): integers by the names
/// that say their width, members by their numbers. It is read as this name and this signature.
pub fn decl_text(alloc: Global, sig: &Sig, name: &[u8]) -> Result<Bytes, NoMemory>
    requires faultless { SignatureHasNoFault sig.now }
    requires all_fixed { FixesAll sig.now }
    requires identifier { IsIdentifier name.now }
    ensures text { IfOk result (λ text. text ≡ declaration_text name.now sig.now) }
    ensures read_back { IfOk result (λ text. IsReading text (reads (record { called = name.now; signature = sig.now }))) }
{
    let mut writer = Writer {
        text: Bytes::new(alloc),
        tight: true,
    };
    writer.put_type(alloc, sig.ret())?;
    writer.put_two(alloc, Token::Name(name), Token::OpenRound)?;
    writer.put_parameters(alloc, sig.args(), sig.fixed().is_some())?;
    writer.put(alloc, Token::Semicolon)?;
    let Writer { text, tight: _ } = writer;
    Ok(text)
}

/// The canonical text of a prototype, as `int32_t f(void *, ..., double);`: that of a declaration, with the types that a
/// call passes behind the dots. Where none stand there it is `decl_text`'s. A long double is written as such, where it has no
/// format yet.
pub fn prototype_text(alloc: Global, sig: &Sig, name: &[u8]) -> Result<Bytes, NoMemory>
    requires { (n : ℕ) → sig.now.fixed ≡ Some n → (0 < n) × (n ≤ length sig.now.arguments) }
    ensures { IfOk result (λ text. text ≡ prototype_text name.now sig.now) }
{
    let mut writer = Writer {
        text: Bytes::new(alloc),
        tight: true,
    };
    writer.put_type(alloc, sig.ret())?;
    writer.put_two(alloc, Token::Name(name), Token::OpenRound)?;
    writer.put_list(alloc, sig.args(), sig.fixed())?;
    writer.put(alloc, Token::Semicolon)?;
    let Writer { text, tight: _ } = writer;
    Ok(text)
}
