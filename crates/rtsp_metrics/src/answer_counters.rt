//! Counters of answers, which one thread adds to.

use crate::counter::SoleCounter;
use crate::kinds::{Method, Outcome, Refusal};
use crate::snapshot::{ByMethod, ByOutcome, Counts, Refusals};

#[derive(Drop)]
struct OutcomeCounters {
    success: SoleCounter,
    redirection: SoleCounter,
    client_error: SoleCounter,
    server_error: SoleCounter,
}

impl OutcomeCounters {
    fn new() -> OutcomeCounters {
        OutcomeCounters {
            success: SoleCounter::new(),
            redirection: SoleCounter::new(),
            client_error: SoleCounter::new(),
            server_error: SoleCounter::new(),
        }
    }

    fn add(&self, outcome: Outcome) {
        match outcome {
            Outcome::Success => self.success.add_one(),
            Outcome::Redirection => self.redirection.add_one(),
            Outcome::ClientError => self.client_error.add_one(),
            Outcome::ServerError => self.server_error.add_one(),
        }
    }

    fn add_to(&self, sum: &mut ByOutcome) {
        sum.success = sum.success.wrapping_add(self.success.read());
        sum.redirection = sum.redirection.wrapping_add(self.redirection.read());
        sum.client_error = sum.client_error.wrapping_add(self.client_error.read());
        sum.server_error = sum.server_error.wrapping_add(self.server_error.read());
    }
}

#[derive(Drop)]
struct MethodCounters {
    options: OutcomeCounters,
    describe: OutcomeCounters,
    setup: OutcomeCounters,
    play: OutcomeCounters,
    pause: OutcomeCounters,
    teardown: OutcomeCounters,
    get_parameter: OutcomeCounters,
    set_parameter: OutcomeCounters,
    other: OutcomeCounters,
}

impl MethodCounters {
    fn new() -> MethodCounters {
        MethodCounters {
            options: OutcomeCounters::new(),
            describe: OutcomeCounters::new(),
            setup: OutcomeCounters::new(),
            play: OutcomeCounters::new(),
            pause: OutcomeCounters::new(),
            teardown: OutcomeCounters::new(),
            get_parameter: OutcomeCounters::new(),
            set_parameter: OutcomeCounters::new(),
            other: OutcomeCounters::new(),
        }
    }

    fn of(&self, method: Method) -> &OutcomeCounters {
        match method {
            Method::Options => &self.options,
            Method::Describe => &self.describe,
            Method::Setup => &self.setup,
            Method::Play => &self.play,
            Method::Pause => &self.pause,
            Method::Teardown => &self.teardown,
            Method::GetParameter => &self.get_parameter,
            Method::SetParameter => &self.set_parameter,
            Method::Other => &self.other,
        }
    }

    fn add_to(&self, sum: &mut ByMethod) {
        self.options.add_to(&mut sum.options);
        self.describe.add_to(&mut sum.describe);
        self.setup.add_to(&mut sum.setup);
        self.play.add_to(&mut sum.play);
        self.pause.add_to(&mut sum.pause);
        self.teardown.add_to(&mut sum.teardown);
        self.get_parameter.add_to(&mut sum.get_parameter);
        self.set_parameter.add_to(&mut sum.set_parameter);
        self.other.add_to(&mut sum.other);
    }
}

#[derive(Drop)]
struct RefusalCounters {
    bandwidth: SoleCounter,
    unavailable: SoleCounter,
    session: SoleCounter,
    path: SoleCounter,
    state: SoleCounter,
    transport: SoleCounter,
    credentials: SoleCounter,
    other: SoleCounter,
}

impl RefusalCounters {
    fn new() -> RefusalCounters {
        RefusalCounters {
            bandwidth: SoleCounter::new(),
            unavailable: SoleCounter::new(),
            session: SoleCounter::new(),
            path: SoleCounter::new(),
            state: SoleCounter::new(),
            transport: SoleCounter::new(),
            credentials: SoleCounter::new(),
            other: SoleCounter::new(),
        }
    }

    fn add(&self, refusal: Refusal) {
        match refusal {
            Refusal::Bandwidth => self.bandwidth.add_one(),
            Refusal::Unavailable => self.unavailable.add_one(),
            Refusal::Session => self.session.add_one(),
            Refusal::Path => self.path.add_one(),
            Refusal::State => self.state.add_one(),
            Refusal::Transport => self.transport.add_one(),
            Refusal::Credentials => self.credentials.add_one(),
            Refusal::Other => self.other.add_one(),
        }
    }

    fn add_to(&self, sum: &mut Refusals) {
        sum.bandwidth = sum.bandwidth.wrapping_add(self.bandwidth.read());
        sum.unavailable = sum.unavailable.wrapping_add(self.unavailable.read());
        sum.session = sum.session.wrapping_add(self.session.read());
        sum.path = sum.path.wrapping_add(self.path.read());
        sum.state = sum.state.wrapping_add(self.state.read());
        sum.transport = sum.transport.wrapping_add(self.transport.read());
        sum.credentials = sum.credentials.wrapping_add(self.credentials.read());
        sum.other = sum.other.wrapping_add(self.other.read());
    }
}

/// The counters of what a lane answers. Each lane has its own and alone adds to them, so that no two
/// write to the same place in memory; anyone may read them meanwhile.
#[derive(Drop)]
pub struct AnswerCounters {
    requests: MethodCounters,
    refusals: RefusalCounters,
}

impl AnswerCounters {
    /// Nothing was counted.
    pub fn new() -> AnswerCounters {
        AnswerCounters {
            requests: MethodCounters::new(),
            refusals: RefusalCounters::new(),
        }
    }

    /// A request of this method was answered with this status.
    pub fn answered(&self, method: Method, status: u16) {
        self.requests.of(method).add(Outcome::of(status));
        if let Some(refusal) = Refusal::of(status) {
            self.refusals.add(refusal);
        }
    }

    /// Adds what was counted so far.
    pub fn add_to(&self, counts: &mut Counts) {
        self.requests.add_to(&mut counts.requests);
        self.refusals.add_to(&mut counts.refusals);
    }
}
