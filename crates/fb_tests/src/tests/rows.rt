//! Runs whose rounds were worked out by hand.

use super::ENOUGH;
use super::texts::{
    ARRIVAL_RUN, BETWEEN_RUN, CYCLE_RUN, LATER_STOP, PAST_A_STOP, RING_RUN, Run, TWO_STOPS,
};
use fb_sim::Outcome;
use fb_types::Form;

/// A round of a run.
#[derive(Clone, Copy)]
pub struct Part {
    /// The bound of each resource before it, and 0 for one that has stopped.
    pub bounds: &'static [u64],
    /// The lines that it hands out.
    pub lines: &'static str,
}

/// A run, and its rounds.
#[derive(Clone, Copy)]
pub struct Row {
    pub run: Run,
    pub form: Form,
    pub rounds: &'static [Part],
}

/// Of two messages to one resource the one that was sent later is taken first.
const LATER_FIRST: Run = Run {
    declaration: "APPLICATION A FBS A : E_MERGE; B : E_MERGE; M : E_MERGE; END_FBS\n\
        EVENT_CONNECTIONS A.EO TO M.EI1; B.EO TO M.EI2; END_CONNECTIONS END_APPLICATION",
    deploy: "resource = [\n\
        { device = 'D', name = 'R1', instances = ['A'] },\n\
        { device = 'D', name = 'R2', instances = ['B'] },\n\
        { device = 'D', name = 'R3', instances = ['M'] },\n\
        ]\n\
        link = [\n\
        { from = 'R1', to = 'R3', latency = 1 },\n\
        { from = 'R2', to = 'R3', latency = 4 },\n\
        ]\n",
    stimuli: "tick,event,values\n1,B.EI1,\n4,A.EI1,\n",
    horizon: 6,
    steps: ENOUGH,
    outcome: Outcome::End(6),
};

/// A stimulus at the tick of an arrival sees the copy from before it.
const OLD_COPY: Run = Run {
    declaration: "APPLICATION A FBS F : E_SR; W : E_SWITCH; END_FBS\n\
        EVENT_CONNECTIONS F.EO TO W.EI; END_CONNECTIONS\n\
        DATA_CONNECTIONS F.Q TO W.G; END_CONNECTIONS END_APPLICATION",
    deploy: "resource = [\n\
        { device = 'D', name = 'R1', instances = ['F'] },\n\
        { device = 'D', name = 'R2', instances = ['W'] },\n\
        ]\n\
        link = [{ from = 'R1', to = 'R2', latency = 2 }]\n",
    stimuli: "tick,event,values\n3,F.S,\n5,W.EI,\n",
    horizon: 6,
    steps: ENOUGH,
    outcome: Outcome::End(6),
};

/// From tick 10 on the link is faster, so that the second message overtakes the first.
const OVERTAKEN: Run = Run {
    declaration: "APPLICATION A FBS P : E_MERGE; Q : E_MERGE; M : E_MERGE; END_FBS\n\
        EVENT_CONNECTIONS P.EO TO M.EI1; Q.EO TO M.EI2; END_CONNECTIONS END_APPLICATION",
    deploy: "resource = [\n\
        { device = 'D', name = 'R1', instances = ['P', 'Q'] },\n\
        { device = 'D', name = 'R2', instances = ['M'] },\n\
        ]\n\
        link = [{ from = 'R1', to = 'R2', latencies = [[0, 5], [10, 1]] }]\n",
    stimuli: "tick,event,values\n8,P.EI1,\n10,Q.EI1,\n",
    horizon: 14,
    steps: ENOUGH,
    outcome: Outcome::End(14),
};

/// Both messages arrive at one tick, and are taken in the order in which they were sent.
const TOGETHER: Run = Run {
    stimuli: "tick,event,values\n8,P.EI1,\n12,Q.EI1,\n",
    ..OVERTAKEN
};

/// R1 runs to the horizon at once, since nothing can reach it. The arrival at R2 is exactly at the end of its first
/// window.
pub static ARRIVAL_ROW: Row = Row {
    run: ARRIVAL_RUN,
    form: Form::One,
    rounds: &[
        Part {
            bounds: &[5, 2],
            lines: "0 R1 < S.COLD\n",
        },
        Part {
            bounds: &[5, 5],
            lines: "2 R2 > M.EI1\n\
                    2 R2 < M.EO\n",
        },
    ],
};

pub static LATER_FIRST_ROW: Row = Row {
    run: LATER_FIRST,
    form: Form::One,
    rounds: &[
        Part {
            bounds: &[6, 6, 2],
            lines: "1 R2 > B.EI1\n\
                    1 R2 < B.EO\n\
                    4 R1 > A.EI1\n\
                    4 R1 < A.EO\n",
        },
        Part {
            bounds: &[6, 6, 6],
            lines: "5 R3 > M.EI1\n\
                    5 R3 < M.EO\n\
                    5 R3 > M.EI2\n\
                    5 R3 < M.EO\n",
        },
    ],
};

pub static OLD_COPY_ROW: Row = Row {
    run: OLD_COPY,
    form: Form::One,
    rounds: &[
        Part {
            bounds: &[6, 5],
            lines: "3 R1 > F.S\n\
                    3 R1 < F.EO Q=TRUE\n",
        },
        Part {
            bounds: &[6, 6],
            lines: "5 R2 > W.EI G=FALSE\n\
                    5 R2 < W.EO0\n\
                    5 R2 > W.EI G=TRUE\n\
                    5 R2 < W.EO1\n",
        },
    ],
};

pub static BETWEEN_ROW: Row = Row {
    run: BETWEEN_RUN,
    form: Form::One,
    rounds: &[Part {
        bounds: &[9, 9, 9],
        lines: "7 R1 > A.EI1\n\
                    7 R1 < A.EO\n\
                    7 R2 > L.GO\n\
                    7 R2 < L.TICKED\n\
                    7 R2 < L.TICKED\n\
                    7 R2 < L.TICKED\n\
                    7 R2 < L.TICKED\n",
    }],
};

pub static TWO_STOPS_ROW: Row = Row {
    run: TWO_STOPS,
    form: Form::One,
    rounds: &[Part {
        bounds: &[9, 9],
        lines: "7 R1 > K.GO\n\
                    7 R1 < K.TICKED\n",
    }],
};

/// R1 stops at 100 in the first round, and R2 at 50 in the second.
pub static LATER_STOP_ROW: Row = Row {
    run: LATER_STOP,
    form: Form::One,
    rounds: &[
        Part {
            bounds: &[200, 8],
            lines: "7 R1 > M.EI1\n\
                    7 R1 < M.EO\n",
        },
        Part {
            bounds: &[0, 101],
            lines: "50 R2 > K.GO\n\
                    50 R2 < K.TICKED\n",
        },
    ],
};

/// All lines before the stop are handed out in the first round, and in the second R3 comes past the stop.
pub static PAST_A_STOP_ROW: Row = Row {
    run: PAST_A_STOP,
    form: Form::One,
    rounds: &[
        Part {
            bounds: &[200, 200, 8],
            lines: "7 R1 > M.EI1\n\
                    7 R1 < M.EO\n\
                    50 R2 > K.GO\n\
                    50 R2 < K.TICKED\n",
        },
        Part {
            bounds: &[200, 0, 51],
            lines: "",
        },
    ],
};

pub static OVERTAKEN_ROW: Row = Row {
    run: OVERTAKEN,
    form: Form::One,
    rounds: &[
        Part {
            bounds: &[14, 11],
            lines: "8 R1 > P.EI1\n\
                    8 R1 < P.EO\n\
                    10 R1 > Q.EI1\n\
                    10 R1 < Q.EO\n",
        },
        Part {
            bounds: &[14, 14],
            lines: "11 R2 > M.EI2\n\
                    11 R2 < M.EO\n\
                    13 R2 > M.EI1\n\
                    13 R2 < M.EO\n",
        },
    ],
};

pub static TOGETHER_ROW: Row = Row {
    run: TOGETHER,
    form: Form::One,
    rounds: &[
        Part {
            bounds: &[14, 11],
            lines: "8 R1 > P.EI1\n\
                    8 R1 < P.EO\n\
                    12 R1 > Q.EI1\n\
                    12 R1 < Q.EO\n",
        },
        Part {
            bounds: &[14, 14],
            lines: "13 R2 > M.EI1\n\
                    13 R2 < M.EO\n\
                    13 R2 > M.EI2\n\
                    13 R2 < M.EO\n",
        },
    ],
};

/// A cycle in one resource, with the keys of the events whose lines these are.
pub static CYCLE_ROW: Row = Row {
    run: CYCLE_RUN,
    form: Form::Two,
    rounds: &[Part {
        bounds: &[8],
        lines: "1 0 0 0 MAIN < S.COLD\n\
                    3 0 0 0 MAIN > C.START DT=3\n\
                    1 1 0 3 MAIN < C.EO\n\
                    1 1 0 6 MAIN < C.EO\n",
    }],
};

/// An event goes round a ring of four resources, one link in each round. A resource may send from its clock on, and not
/// before the least event, so that nothing arrives at the next one until the latency of the link later.
pub static RING_ROW: Row = Row {
    run: RING_RUN,
    form: Form::One,
    rounds: &[
        Part {
            bounds: &[4, 1, 2, 3],
            lines: "0 R0 < S.COLD\n\
                    0 R0 > M0.EI2\n\
                    0 R0 < M0.EO\n",
        },
        Part {
            bounds: &[7, 5, 3, 5],
            lines: "1 R1 > M1.EI1\n\
                    1 R1 < M1.EO\n",
        },
        Part {
            bounds: &[9, 8, 7, 6],
            lines: "3 R2 > M2.EI1\n\
                    3 R2 < M2.EO\n",
        },
        Part {
            bounds: &[10, 10, 10, 10],
            lines: "6 R3 > M3.EI1\n\
                    6 R3 < M3.EO\n",
        },
        Part {
            bounds: &[14, 11, 12, 13],
            lines: "10 R0 > M0.EI1\n\
                    10 R0 < M0.EO\n",
        },
        Part {
            bounds: &[17, 15, 13, 15],
            lines: "11 R1 > M1.EI1\n\
                    11 R1 < M1.EO\n",
        },
        Part {
            bounds: &[19, 18, 17, 16],
            lines: "13 R2 > M2.EI1\n\
                    13 R2 < M2.EO\n",
        },
        Part {
            bounds: &[20, 20, 20, 20],
            lines: "16 R3 > M3.EI1\n\
                    16 R3 < M3.EO\n",
        },
        Part {
            bounds: &[24, 21, 22, 23],
            lines: "20 R0 > M0.EI1\n\
                    20 R0 < M0.EO\n",
        },
        Part {
            bounds: &[27, 25, 23, 25],
            lines: "21 R1 > M1.EI1\n\
                    21 R1 < M1.EO\n",
        },
        Part {
            bounds: &[29, 28, 27, 26],
            lines: "23 R2 > M2.EI1\n\
                    23 R2 < M2.EO\n",
        },
        Part {
            bounds: &[30, 30, 30, 30],
            lines: "26 R3 > M3.EI1\n\
                    26 R3 < M3.EO\n",
        },
        Part {
            bounds: &[34, 31, 32, 33],
            lines: "30 R0 > M0.EI1\n\
                    30 R0 < M0.EO\n",
        },
        Part {
            bounds: &[37, 35, 33, 35],
            lines: "31 R1 > M1.EI1\n\
                    31 R1 < M1.EO\n",
        },
        Part {
            bounds: &[39, 38, 37, 36],
            lines: "33 R2 > M2.EI1\n\
                    33 R2 < M2.EO\n",
        },
        Part {
            bounds: &[40, 40, 40, 40],
            lines: "36 R3 > M3.EI1\n\
                    36 R3 < M3.EO\n",
        },
        Part {
            bounds: &[44, 41, 42, 43],
            lines: "40 R0 > M0.EI1\n\
                    40 R0 < M0.EO\n",
        },
        Part {
            bounds: &[47, 45, 43, 45],
            lines: "41 R1 > M1.EI1\n\
                    41 R1 < M1.EO\n",
        },
        Part {
            bounds: &[49, 48, 47, 46],
            lines: "43 R2 > M2.EI1\n\
                    43 R2 < M2.EO\n",
        },
        Part {
            bounds: &[50, 50, 50, 50],
            lines: "46 R3 > M3.EI1\n\
                    46 R3 < M3.EO\n",
        },
    ],
};
