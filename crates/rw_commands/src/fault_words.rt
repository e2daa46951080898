//! Lists the words for what is wrong with models, inputs, rulesets and code.
ghost use Rattle.std.specs.Prelude.{◌≡◌};
ghost use Rattle.rw_commands.specs.Lines.{build_words as words_of_build, table_words as words_of_table, calendar_words as words_of_calendar, input_words as words_of_input, type_words as words_of_type, verify_words as words_of_verify};

use rpl_types::TypeKind;
use rpl_verify::VerifyKind;
use rw_calendar::CalFault;
use rw_inputs::InputKind;
use rw_model::BuildFault;
use rw_table::TableFault;

pub(crate) fn build_words(fault: BuildFault) -> &'static str
    ensures { result.now ≡ words_of_build fault }
{
    match fault {
        BuildFault::DuplicateName => "duplicate name",
        BuildFault::UnknownSlot => "unknown slot",
        BuildFault::LinkedTwice => "linked twice",
        BuildFault::LinkWithinObject => "link within object",
        BuildFault::LinkDimension => "link dimension",
        BuildFault::LinkBounds => "link bounds",
        BuildFault::BadParameter => "bad parameter",
        BuildFault::TooMany(_) => "too many",
        BuildFault::NoMemory => "no memory",
    }
}

pub(crate) fn table_words(fault: TableFault) -> &'static str
    ensures { result.now ≡ words_of_table fault }
{
    match fault {
        TableFault::TooFewRows => "too few rows",
        TableFault::TooManyRows => "too many rows",
        TableFault::OutOfBounds(_) => "out of bounds",
        TableFault::NotRising(_) => "not rising",
        TableFault::NoMemory => "no memory",
    }
}

pub(crate) fn calendar_words(fault: CalFault) -> &'static str
    ensures { result.now ≡ words_of_calendar fault }
{
    match fault {
        CalFault::BadStart => "bad start",
        CalFault::NotFirstOfMonth => "not first of month",
        CalFault::BeyondYears => "beyond years",
        CalFault::NoMemory => "no memory",
    }
}

pub(crate) fn input_words(kind: InputKind) -> &'static str
    ensures { result.now ≡ words_of_input kind }
{
    match kind {
        InputKind::Header => "header",
        InputKind::UnknownSlot => "unknown slot",
        InputKind::NotSettable => "not settable",
        InputKind::NotANumber => "not a number",
        InputKind::OutOfBounds => "out of bounds",
        InputKind::StepOutside => "step outside",
        InputKind::Twice => "twice",
        InputKind::Ragged => "ragged",
        InputKind::BatchOrder => "batch order",
        InputKind::TooMany => "too many",
    }
}

pub(crate) fn type_words(kind: TypeKind) -> &'static str
    ensures { result.now ≡ words_of_type kind }
{
    match kind {
        TypeKind::UnknownName => "unknown name",
        TypeKind::UnknownSlot => "unknown slot",
        TypeKind::UnknownUnit => "unknown unit",
        TypeKind::NotSettable => "not settable",
        TypeKind::WrongType => "wrong type",
        TypeKind::WrongUnit => "wrong unit",
        TypeKind::WrongCount => "wrong count",
        TypeKind::NotEarlier => "not earlier",
        TypeKind::DuplicateName => "duplicate name",
        TypeKind::TargetStep => "target step",
        TypeKind::ListTooLong => "list too long",
        TypeKind::LiteralRange => "literal range",
        TypeKind::NoTable => "no table",
        TypeKind::TooCostly => "too costly",
    }
}

pub(crate) fn verify_words(kind: VerifyKind) -> &'static str
    ensures { result.now ≡ words_of_verify kind }
{
    match kind {
        VerifyKind::TooMany => "too many",
        VerifyKind::NoSuchName => "no such name",
        VerifyKind::NotSettable => "not settable",
        VerifyKind::PutInFunction => "put in function",
        VerifyKind::TargetStep => "target step",
        VerifyKind::BackwardJump => "backward jump",
        VerifyKind::JumpOutside => "jump outside",
        VerifyKind::LaterCall => "later call",
        VerifyKind::MissingOperand => "missing operand",
        VerifyKind::WrongOperand => "wrong operand",
        VerifyKind::WrongShape => "wrong shape",
        VerifyKind::TooCostly => "too costly",
        VerifyKind::TooManyReads => "too many reads",
        VerifyKind::TooManyPuts => "too many puts",
        VerifyKind::TooDeep => "too deep",
    }
}
