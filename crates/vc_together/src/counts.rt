// How many connections a server has taken, and whether it takes more.
use vc_files::Fault;

/// The connections of a server, counted.
#[derive(Drop)]
pub(crate) struct Counts {
    // How many are served; none: as many as come.
    most: Option<u32>,
    // On how many of those that have ended a message came.
    served: u32,
    // How many are waited for or served now.
    open: u32,
    // How many were begun: each has the next number as its name.
    begun: u64,
    // Why the server ends before its time.
    fault: Option<Fault>,
}

impl Counts {
    /// None was taken, and so many will be.
    pub(crate) fn new(most: Option<u32>) -> Counts {
        Counts {
            most,
            served: 0,
            open: 0,
            begun: 0,
            fault: None,
        }
    }

    // Whether this many are as many as are to be served.
    fn is_enough(&self, count: u32) -> bool {
        match self.most {
            Some(most) => most <= count,
            None => false,
        }
    }

    /// Whether no more is taken.
    pub(crate) fn is_over(&self) -> bool {
        self.fault.is_some() || self.is_enough(self.served)
    }

    /// Whether it hangs on those that are open if one more is taken.
    pub(crate) fn is_undecided(&self) -> bool {
        !self.is_over() && self.is_enough(self.served.saturating_add(self.open))
    }

    /// Begins to wait for one more, and returns its name.
    pub(crate) fn begin(&mut self) -> u64 {
        let name = self.begun;
        self.begun = self.begun.saturating_add(1);
        self.open = self.open.saturating_add(1);
        name
    }

    /// One of those that are open has ended, and counts if a message came on it.
    pub(crate) fn end(&mut self, counts: bool) {
        self.open = self.open.saturating_sub(1);
        if counts {
            self.served = self.served.saturating_add(1);
        }
    }

    /// The server ends for this fault, if it doesn't end for another already.
    pub(crate) fn fail(&mut self, fault: Fault) {
        if self.fault.is_none() {
            self.fault = Some(fault);
        }
    }

    /// Why the server ended before its time.
    pub(crate) fn fault(&self) -> Option<Fault> {
        self.fault
    }
}
