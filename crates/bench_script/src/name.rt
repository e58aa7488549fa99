// The names of commands.
ghost use Rattle.std.specs.Prelude.{◌≡◌};
ghost use Rattle.bench_script.specs.Name.{name_of, arguments_of};

#[derive(Clone, Copy)]
pub enum Name {
    Init,
    DeInit,
    Set,
    Get,
    ErrorState,
    RxErrors,
    TxErrors,
    Write,
    Poll,
    Sent,
    BusOff,
    Errors,
    Arrived,
    Next,
    Data,
    Sheet,
    Memory,
    Show,
    State,
    Config,
    Controllers,
    Object,
}

// The command that a line's first word names.
#[tactic(auto, unfolding(crate::specs::Name::name_of))]
pub fn name_of(word: &[u8]) -> Option<Name>
    ensures { result ≡ name_of word.now }
{
    match word {
        b"init" => Some(Name::Init),
        b"deinit" => Some(Name::DeInit),
        b"set" => Some(Name::Set),
        b"get" => Some(Name::Get),
        b"errorstate" => Some(Name::ErrorState),
        b"rxerrors" => Some(Name::RxErrors),
        b"txerrors" => Some(Name::TxErrors),
        b"write" => Some(Name::Write),
        b"poll" => Some(Name::Poll),
        b"sent" => Some(Name::Sent),
        b"busoff" => Some(Name::BusOff),
        b"errors" => Some(Name::Errors),
        b"arrived" => Some(Name::Arrived),
        b"next" => Some(Name::Next),
        b"data" => Some(Name::Data),
        b"sheet" => Some(Name::Sheet),
        b"memory" => Some(Name::Memory),
        b"show" => Some(Name::Show),
        b"state" => Some(Name::State),
        b"config" => Some(Name::Config),
        b"controllers" => Some(Name::Controllers),
        b"object" => Some(Name::Object),
        _ => None,
    }
}

// How many words follow a name.
#[derive(Clone, Copy)]
pub enum Arguments {
    Exactly(u8),
    AtLeast(u8),
}

// More may follow where bytes stand in several words, and where an object's kind says how many it takes.
pub fn arguments_of(name: Name) -> Arguments
    ensures { result ≡ arguments_of name }
{
    match name {
        Name::Init => Arguments::AtLeast(0),
        Name::DeInit | Name::State => Arguments::Exactly(0),
        Name::Get
        | Name::ErrorState
        | Name::RxErrors
        | Name::TxErrors
        | Name::Poll
        | Name::Sent
        | Name::BusOff
        | Name::Next
        | Name::Data
        | Name::Sheet
        | Name::Memory
        | Name::Show
        | Name::Controllers => Arguments::Exactly(1),
        Name::Set | Name::Config => Arguments::Exactly(2),
        Name::Errors => Arguments::Exactly(3),
        Name::Object => Arguments::AtLeast(1),
        Name::Arrived => Arguments::AtLeast(3),
        Name::Write => Arguments::AtLeast(4),
    }
}
