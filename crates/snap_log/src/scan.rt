// Where the whole lines of a file end, found byte for byte.
ghost use Rattle.std.specs.Prelude.{◌≡◌, ◌+◌, ◌<◌, ◌^◌, length};
ghost use Rattle.snap_log.specs.Scans.{at_start, scan_step, scanned};

// Where a byte stands: before a line, within one, or behind the lines.
#[derive(Clone, Copy, Debug, PartialEq, Eq)]
pub(crate) enum Place {
    Before,
    Within,
    Behind,
}

// How far a file was read, and where its whole lines end so far.
#[derive(Clone, Copy, Debug)]
pub(crate) struct Scan {
    pub(crate) end: usize,
    pub(crate) at: usize,
    pub(crate) place: Place,
}

impl Scan {
    pub(crate) fn new() -> Scan
        ensures { result ≡ at_start }
    {
        Scan {
            end: 0,
            at: 0,
            place: Place::Before,
        }
    }

    // Takes the byte that comes next.
    fn take(&mut self, b: u8)
        requires { self.old.at + 1 < 2 ^ 64 }
        ensures { self.new ≡ scan_step self.old.end self.old.at b self.old.place }
    {
        self.at += 1;
        match self.place {
            Place::Before if b == b'{' => self.place = Place::Within,
            Place::Before => self.place = Place::Behind,
            Place::Within if b == b'\n' => {
                self.place = Place::Before;
                self.end = self.at;
            }
            Place::Within | Place::Behind => {}
        }
    }

    // Takes the bytes that come next.
    pub(crate) fn feed(&mut self, bytes: &[u8])
        requires { self.old.at + length bytes.now < 2 ^ 64 }
        ensures scanned { self.new ≡ scanned self.old bytes.now }
        ensures at { self.new.at ≡ self.old.at + length bytes.now }
    {
        for b in bytes {
            self.take(*b);
        }
    }
}
