//! Systems with their traces, which were worked out by hand.

use super::ENOUGH;
use fb_sim::Outcome;
use fb_types::{Reason, StopMark};

/// A run, and how it ends. An empty text means no deployment, or no stimuli.
#[derive(Clone, Copy)]
pub struct Run {
    pub declaration: &'static str,
    pub deploy: &'static str,
    pub stimuli: &'static str,
    pub horizon: u64,
    pub steps: u64,
    pub outcome: Outcome,
}

/// A run with its trace.
#[derive(Clone, Copy)]
pub struct Case {
    pub run: Run,
    pub trace: &'static str,
}

pub const CYCLE_TRACE: &str = "0 MAIN < S.COLD\n\
    0 MAIN > C.START DT=3\n\
    3 MAIN < C.EO\n\
    6 MAIN < C.EO\n\
    end 8\n";

/// A cycle of three ticks that begins with the run.
pub const CYCLE_TEXT: &str = "APPLICATION A FBS S : E_RESTART; C : E_CYCLE(DT := T#3ms); END_FBS\n\
    EVENT_CONNECTIONS S.COLD TO C.START; END_CONNECTIONS END_APPLICATION";

pub const CYCLE_RUN: Run = Run {
    declaration: CYCLE_TEXT,
    deploy: "",
    stimuli: "",
    horizon: 8,
    steps: ENOUGH,
    outcome: Outcome::End(8),
};

pub const CYCLE: Case = Case {
    run: CYCLE_RUN,
    trace: CYCLE_TRACE,
};

/// A block that runs without end once it has begun: an event, a transition and an action are its first three steps.
macro_rules! looper {
    ($application:literal) => {
        concat!(
            "FUNCTION_BLOCK LOOPER\n",
            "EVENT_INPUT GO; END_EVENT\n",
            "EVENT_OUTPUT TICKED; END_EVENT\n",
            "EC_STATES IDLE; BUSY : -> TICKED; END_STATES\n",
            "EC_TRANSITIONS IDLE TO BUSY := GO; BUSY TO BUSY := 1; END_TRANSITIONS\n",
            "END_FUNCTION_BLOCK\n",
            $application
        )
    };
}

pub const BETWEEN_TRACE: &str = "7 R1 > A.EI1\n\
    7 R1 < A.EO\n\
    7 R2 > L.GO\n\
    7 R2 < L.TICKED\n\
    7 R2 < L.TICKED\n\
    7 R2 < L.TICKED\n\
    7 R2 < L.TICKED\n\
    stop 7 R2 steps\n";

/// In the tick of the stop the resource before it has run whole, and the one after it not at all.
pub const BETWEEN_RUN: Run = Run {
    declaration: looper!(
        "APPLICATION A FBS A : E_MERGE; L : LOOPER; C : E_MERGE; END_FBS END_APPLICATION"
    ),
    deploy: "resource = [\n\
        { device = 'D', name = 'R1', instances = ['A'] },\n\
        { device = 'D', name = 'R2', instances = ['L'] },\n\
        { device = 'D', name = 'R3', instances = ['C'] },\n\
        ]\n",
    stimuli: "tick,event,values\n7,C.EI1,\n7,L.GO,\n7,A.EI1,\n",
    horizon: 9,
    steps: 10,
    outcome: Outcome::Stop(StopMark {
        tick: 7,
        resource: 1,
        reason: Reason::Steps,
    }),
};

pub const BETWEEN: Case = Case {
    run: BETWEEN_RUN,
    trace: BETWEEN_TRACE,
};

/// An event that takes two ticks from one resource to another: it arrives exactly at the end of the first window.
pub const ARRIVAL_RUN: Run = Run {
    declaration: "APPLICATION A FBS S : E_RESTART; M : E_MERGE; END_FBS\n\
        EVENT_CONNECTIONS S.COLD TO M.EI1; END_CONNECTIONS END_APPLICATION",
    deploy: "resource = [\n\
        { device = 'D', name = 'R1', instances = ['S'] },\n\
        { device = 'D', name = 'R2', instances = ['M'] },\n\
        ]\n\
        link = [{ from = 'R1', to = 'R2', latency = 2 }]\n",
    stimuli: "",
    horizon: 5,
    steps: ENOUGH,
    outcome: Outcome::End(5),
};

pub const ARRIVAL: Case = Case {
    run: ARRIVAL_RUN,
    trace: "0 R1 < S.COLD\n2 R2 > M.EI1\n2 R2 < M.EO\nend 5\n",
};

pub const RING_TRACE: &str = "0 R0 < S.COLD\n0 R0 > M0.EI2\n0 R0 < M0.EO\n\
    1 R1 > M1.EI1\n1 R1 < M1.EO\n3 R2 > M2.EI1\n3 R2 < M2.EO\n\
    6 R3 > M3.EI1\n6 R3 < M3.EO\n10 R0 > M0.EI1\n10 R0 < M0.EO\n\
    11 R1 > M1.EI1\n11 R1 < M1.EO\n13 R2 > M2.EI1\n13 R2 < M2.EO\n\
    16 R3 > M3.EI1\n16 R3 < M3.EO\n20 R0 > M0.EI1\n20 R0 < M0.EO\n\
    21 R1 > M1.EI1\n21 R1 < M1.EO\n23 R2 > M2.EI1\n23 R2 < M2.EO\n\
    26 R3 > M3.EI1\n26 R3 < M3.EO\n30 R0 > M0.EI1\n30 R0 < M0.EO\n\
    31 R1 > M1.EI1\n31 R1 < M1.EO\n33 R2 > M2.EI1\n33 R2 < M2.EO\n\
    36 R3 > M3.EI1\n36 R3 < M3.EO\n40 R0 > M0.EI1\n40 R0 < M0.EO\n\
    41 R1 > M1.EI1\n41 R1 < M1.EO\n43 R2 > M2.EI1\n43 R2 < M2.EO\n\
    46 R3 > M3.EI1\n46 R3 < M3.EO\n\
    end 50\n";

/// An event goes round four resources, over links of 1, 2, 3 and 4 ticks.
pub const RING_RUN: Run = Run {
    declaration: "APPLICATION A FBS S : E_RESTART; M0 : E_MERGE; M1 : E_MERGE; M2 : E_MERGE; M3 : E_MERGE; END_FBS\n\
        EVENT_CONNECTIONS S.COLD TO M0.EI2; M0.EO TO M1.EI1; M1.EO TO M2.EI1; M2.EO TO M3.EI1; M3.EO TO M0.EI1;\n\
        END_CONNECTIONS END_APPLICATION",
    deploy: "resource = [\n\
        { device = 'D', name = 'R0', instances = ['S', 'M0'] },\n\
        { device = 'D', name = 'R1', instances = ['M1'] },\n\
        { device = 'D', name = 'R2', instances = ['M2'] },\n\
        { device = 'D', name = 'R3', instances = ['M3'] },\n\
        ]\n\
        link = [\n\
        { from = 'R0', to = 'R1', latency = 1 },\n\
        { from = 'R1', to = 'R2', latency = 2 },\n\
        { from = 'R2', to = 'R3', latency = 3 },\n\
        { from = 'R3', to = 'R0', latency = 4 },\n\
        ]\n",
    stimuli: "",
    horizon: 50,
    steps: ENOUGH,
    outcome: Outcome::End(50),
};

/// Two resources that stop in one tick: the first of them stops the run.
pub const TWO_STOPS: Run = Run {
    declaration: looper!("APPLICATION A FBS K : LOOPER; L : LOOPER; END_FBS END_APPLICATION"),
    deploy: "resource = [\n\
        { device = 'D', name = 'R1', instances = ['K'] },\n\
        { device = 'D', name = 'R2', instances = ['L'] },\n\
        ]\n",
    stimuli: "tick,event,values\n7,K.GO,\n7,L.GO,\n",
    horizon: 9,
    steps: 3,
    outcome: Outcome::Stop(StopMark {
        tick: 7,
        resource: 0,
        reason: Reason::Steps,
    }),
};

/// The first resource stops at 100, and the second at 50.
pub const LATER_STOP: Run = Run {
    declaration: looper!(
        "APPLICATION A FBS M : E_MERGE; L : LOOPER; K : LOOPER; END_FBS END_APPLICATION"
    ),
    deploy: "resource = [\n\
        { device = 'D', name = 'R1', instances = ['M', 'L'] },\n\
        { device = 'D', name = 'R2', instances = ['K'] },\n\
        ]\n\
        link = [{ from = 'R1', to = 'R2', latency = 1 }]\n",
    stimuli: "tick,event,values\n7,M.EI1,\n100,L.GO,\n50,K.GO,\n",
    horizon: 200,
    steps: 3,
    outcome: STOP_AT_50,
};

/// Events of the resources before and after it come past the tick of a stop, and leave no lines.
pub const PAST_A_STOP: Run = Run {
    declaration: looper!(
        "APPLICATION A FBS M : E_MERGE; K : LOOPER; N : E_MERGE; END_FBS END_APPLICATION"
    ),
    deploy: "resource = [\n\
        { device = 'D', name = 'R1', instances = ['M'] },\n\
        { device = 'D', name = 'R2', instances = ['K'] },\n\
        { device = 'D', name = 'R3', instances = ['N'] },\n\
        ]\n\
        link = [{ from = 'R1', to = 'R3', latency = 1 }]\n",
    stimuli: "tick,event,values\n7,M.EI1,\n52,M.EI1,\n50,K.GO,\n55,N.EI1,\n",
    horizon: 200,
    steps: 3,
    outcome: STOP_AT_50,
};

const STOP_AT_50: Outcome = Outcome::Stop(StopMark {
    tick: 50,
    resource: 1,
    reason: Reason::Steps,
});
