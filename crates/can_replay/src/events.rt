// A list of events: each field of an event stands at its number in the array of that field.
ghost use Rattle.std.specs.Prelude.{◌≡◌, ◌<◌, get_or};
ghost use Rattle.can_replay.specs.Replayed.{bytes_between, event_count};
ghost use Rattle.can_replay.specs.View.{view_events};

use core_places::range::limited;

#[derive(Clone, Copy)]
pub struct Events<'a> {
    pub kinds: &'a [u8],
    pub places: &'a [u32],
    pub values: &'a [u32],
    pub handles: &'a [u16],
    pub starts: &'a [u32],
    pub ends: &'a [u32],
    // Of all events.
    pub bytes: &'a [u8],
}

// The part of all bytes from start to end, none where there is no such part.
fn part(bytes: &[u8], start: usize, end: usize) -> &[u8]
    ensures { result.now ≡ bytes_between start end bytes.now }
{
    if (start <= end) & (end <= bytes.len()) {
        &bytes[start..end]
    } else {
        &bytes[0..0]
    }
}

impl<'a> Events<'a> {
    // As many events as every array has.
    pub fn len(&self) -> usize
        ensures { result ≡ event_count (view_events self.now) }
    {
        let e = limited(self.starts.len(), self.ends.len());
        let h = limited(self.handles.len(), e);
        let v = limited(self.values.len(), h);
        let p = limited(self.places.len(), v);
        limited(self.kinds.len(), p)
    }

    // The bytes of event i.
    pub fn part(&self, i: usize) -> &'a [u8]
        requires { i < event_count (view_events self.now) }
        ensures { result.now ≡ bytes_between (get_or self.now.starts.now i 0) (get_or self.now.ends.now i 0) self.now.bytes.now }
    {
        part(self.bytes, self.starts[i] as usize, self.ends[i] as usize)
    }
}
