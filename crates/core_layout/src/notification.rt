// Notifications, and how they stand on the sheet: four words each, the kind first.
ghost use Rattle.std.specs.Prelude.{◌≡◌, ◌+◌, ◌*◌, ◌≤◌, length};
ghost use Rattle.rules.specs.Bytes.{splice};
ghost use Rattle.rules.specs.Notification as rules;
ghost use Rattle.core_layout.specs.Sheet.{words_each, view};

// What a call reports.
#[derive(Clone, Copy)]
pub enum Notification {
    TxConfirmation {
        object: u32,
        handle: u32,
    },
    RxIndication {
        object: u32,
        identifier: u32,
        length: u32,
    },
    ModeIndication {
        controller: u32,
        mode: u32,
    },
    BusOffIndication {
        controller: u32,
    },
    DevelopmentError {
        service: u32,
        error: u32,
    },
    DataLost {
        object: u32,
    },
    TxCancellation {
        object: u32,
        handle: u32,
    },
    ErrorPassive {
        controller: u32,
        transmit: u32,
        receive: u32,
    },
}

// Words that one notification takes.
pub const WORDS: usize = 4;

// The four words of a notification.
#[tactic(auto, unfolding(rules::specs::Notification::words))]
fn words(n: Notification) -> [u32; WORDS]
    ensures { result ≡ rules.words (view n) }
{
    match n {
        Notification::TxConfirmation { object, handle } => [1, object, handle, 0],
        Notification::RxIndication {
            object,
            identifier,
            length,
        } => [2, object, identifier, length],
        Notification::ModeIndication { controller, mode } => [3, controller, mode, 0],
        Notification::BusOffIndication { controller } => [4, controller, 0, 0],
        Notification::DevelopmentError { service, error } => [5, service, error, 0],
        Notification::DataLost { object } => [6, object, 1, 0],
        Notification::TxCancellation { object, handle } => [7, object, handle, 0],
        Notification::ErrorPassive {
            controller,
            transmit,
            receive,
        } => [8, controller, transmit, receive],
    }
}

// Writes four words from position at. Four stores, since copy_from_slice was tried and made the calls slower.
fn put_words(sheet: &mut [u32], at: usize, words: [u32; WORDS])
    requires { at + words_each ≤ length sheet.old }
    ensures { sheet.new ≡ splice at words sheet.old }
{
    sheet[at] = words[0];
    sheet[at + 1] = words[1];
    sheet[at + 2] = words[2];
    sheet[at + 3] = words[3];
}

// Writes a notification as number index of the sheet, which has room for its four words.
pub fn put(sheet: &mut [u32], index: usize, n: Notification)
    requires { words_each * index + words_each ≤ length sheet.old }
    ensures { sheet.new ≡ splice (words_each * index) (rules.words (view n)) sheet.old }
{
    put_words(sheet, WORDS * index, words(n));
}
