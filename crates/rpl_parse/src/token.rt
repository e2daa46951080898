//! Lists the tokens of a ruleset's text.

/// The reserved words and the marks.
#[derive(Clone, Copy, PartialEq, Eq)]
pub(crate) enum Mark {
    /// `RULE`
    Rule,
    /// `ENDRULE`
    EndRule,
    /// `FUNCTION`
    Function,
    /// `ENDFUNCTION`
    EndFunction,
    /// `IS`
    Is,
    /// `IF`
    If,
    /// `THEN`
    Then,
    /// `ELSE`
    Else,
    /// `ENDIF`
    EndIf,
    /// `WITH`
    With,
    /// `DO`
    Do,
    /// `ENDWITH`
    EndWith,
    /// `LET`
    Let,
    /// `IN`
    In,
    /// `ENDLET`
    EndLet,
    /// `FOR`
    For,
    /// `ENDFOR`
    EndFor,
    /// `MAP`
    Map,
    /// `ENDMAP`
    EndMap,
    /// `AND`
    And,
    /// `OR`
    Or,
    /// `NOT`
    Not,
    /// `TRUE`
    True,
    /// `FALSE`
    False,
    /// `KNOWN`
    Known,
    /// `APPEND`
    Append,
    /// `ITEM`
    Item,
    /// `LENGTH`
    Length,
    /// `MONTH`
    Month,
    /// `DAY`
    Day,
    /// `YEAR`
    Year,
    /// `StorageToElevation`
    StorageToElevation,
    /// `ElevationToStorage`
    ElevationToStorage,
    /// `NUMERIC`
    Numeric,
    /// `BOOLEAN`
    Boolean,
    /// `DATETIME`
    Datetime,
    /// `SLOT`
    Slot,
    /// `LIST`
    List,
    /// `OF`
    Of,
    /// `t`
    Now,
    /// `:=`
    Assign,
    /// `:`
    Colon,
    /// `;`
    Semicolon,
    /// `,`
    Comma,
    /// `.`
    Dot,
    /// `(`
    LeftParen,
    /// `)`
    RightParen,
    /// `{`
    LeftBrace,
    /// `}`
    RightBrace,
    /// `[`
    LeftBracket,
    /// `]`
    RightBracket,
    /// `+`
    Plus,
    /// `-`
    Minus,
    /// `*`
    Times,
    /// `/`
    Divide,
    /// `=`
    Equal,
    /// `<>`
    Unequal,
    /// `<`
    Less,
    /// `<=`
    LessEqual,
    /// `>`
    Greater,
    /// `>=`
    GreaterEqual,
}

/// The bytes of the text from a place up to another.
#[derive(Clone, Copy)]
pub(crate) struct Span {
    /// The place of the first byte.
    pub(crate) start: u32,
    /// The place after the last byte.
    pub(crate) end: u32,
}

/// A token, which keeps the places of its bytes.
#[derive(Clone, Copy)]
pub(crate) enum Token {
    /// A reserved word or a mark.
    Mark(Mark),
    /// Any other word.
    Name(Span),
    /// A number, at most Q.
    Number(i64),
    /// What is between quotes.
    Text(Span),
}

/// A token, and the line in which it begins.
#[derive(Clone, Copy)]
pub(crate) struct TokenAt {
    /// The token.
    pub(crate) token: Token,
    /// The line, counted from 1.
    pub(crate) line: u32,
}
