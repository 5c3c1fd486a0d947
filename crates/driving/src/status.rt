ghost use Rattle.std.specs.Prelude.{◌≡◌};
ghost use Rattle.driving.specs.declared.status.Status.TheVariants.{Normal};

/// What reading is for at present: a step on its own, a macro's arguments, a definition, or a part that is skipped.
#[derive(Clone, Copy, Debug, PartialEq, Eq)]
pub enum Status {
    Normal,
    Matching,
    Defining,
    Skipping,
}

/// The record of the scanning status.
#[derive(Clone, Copy, Debug, PartialEq, Eq)]
pub struct Scan {
    pub status: Status,
}

impl Scan {
    pub fn new() -> Scan
        ensures { result.status ≡ Normal }
    {
        Scan {
            status: Status::Normal,
        }
    }
}

/// Sets the scanning status, and puts back the one before when it goes.
pub struct Guard<'a> {
    scan: &'a mut Scan,
    before: Scan,
}

impl<'a> Guard<'a> {
    pub fn enter(scan: &'a mut Scan, status: Status) -> Guard<'a>
        ensures before { result.before ≡ scan.old }
        ensures within { result.scan.now.status ≡ status }
        ensures named { result.scan.ghost_name ≡ scan.entry.ghost_name }
    {
        let before = *scan;
        scan.status = status;
        Guard { scan, before }
    }

    pub fn status(&self) -> Status
        ensures { result ≡ self.now.scan.now.status }
    {
        self.scan.status
    }
}

impl Drop for Guard<'_> {
    fn drop(self)
        ensures { self.exit.0.now ≡ self.entry.before }
    {
        *self.scan = self.before;
        let Guard { scan: _, before: _ } = self;
    }
}
