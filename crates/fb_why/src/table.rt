//! What each refusal, each warning and each reason of a stop means, with examples of it and what to look at.

/// The explanation of a refusal, of a fault of a file, of a warning, or of the reason of a stop.
#[derive(Clone, Copy)]
pub struct Explanation {
    /// Its name in the line of the fault or of the warning, or in the last line of a trace.
    pub name: &'static str,
    /// What it means.
    pub meaning: &'static str,
    /// An input that is refused for it, that has the warning, or that stops a run.
    pub example: &'static str,
    /// Another one.
    pub other: &'static str,
    /// What to check.
    pub look: &'static str,
}

// Eight tables, since the proof of the function that lends one takes time in the square of its text. docs/FORMATS.md
// shows them one after another; `tools/explained.py` compares.

/// Refusals of the text of a declaration.
pub static OF_DECLARATIONS: [Explanation; 5] = [
    Explanation {
        name: "E01",
        meaning: "A byte of the declaration is allowed only in comments.",
        example: "A letter with an accent in the name of an instance.",
        other: "A form feed between two lines.",
        look: "The first such byte of the text. Outside comments, only tab, line feed, carriage return and the printable ASCII characters are allowed.",
    },
    Explanation {
        name: "E02",
        meaning: "A part of the declaration is no token.",
        example: "`T#1.5s`: a time literal has whole parts; write `T#1s500ms`.",
        other: "A comment `(*` that is not closed.",
        look: "The first such part of the text: a literal, a comment, or a character that begins no token.",
    },
    Explanation {
        name: "E03",
        meaning: "The tokens of the declaration are no library. The line is that of the first token that can't be there.",
        example: "`S : E_RESTART` with no `;` after it: the line is that of the next token.",
        other: "`VAR_OUTPUT` before `VAR_INPUT`: the sections have a fixed order.",
        look: "That line, and the end of the line before it. docs/FORMATS.md has the grammar.",
    },
    Explanation {
        name: "E04",
        meaning: "The declaration has more than 1,048,576 bytes.",
        example: "A text that a tool wrote with long comments.",
        other: "A file of another kind, given by mistake.",
        look: "The size of the file. Comments, blanks and a byte order mark count.",
    },
    Explanation {
        name: "E05",
        meaning: "An expression or a statement nests more than 64 deep.",
        example: "A sum of 65 terms: each `+` contains all terms before it.",
        other: "65 statements IF, one inside the other.",
        look: "Long chains of one operator: assign a part to a variable. The branches of one IF or CASE nest no deeper than one of them.",
    },
];

/// Refusals of a deployment or stimuli by themselves.
pub static OF_INPUTS: [Explanation; 7] = [
    Explanation {
        name: "E10",
        meaning: "The deployment is not TOML.",
        example: "`name = R1`: a text has quotes, `name = \"R1\"`.",
        other: "The same key twice in one table.",
        look: "Quotes, brackets and commas. The text is UTF-8, and integers have 64 bits.",
    },
    Explanation {
        name: "E11",
        meaning: "A table of the deployment lacks a key, has an unknown one, or has a value of another kind; or a link leads from a resource to itself.",
        example: "`[[resource]]` with no `device`.",
        other: "`latency = \"2\"`: a latency is an integer.",
        look: "Each `resource` has `device`, `name` and `instances`, each `link` has `from`, `to`, and `latency` or `latencies`, and no other keys. There is at least one `resource`. All texts are names, and a keyword is not a name.",
    },
    Explanation {
        name: "E12",
        meaning: "A latency is not within 1 to 1,000,000 ticks.",
        example: "`latency = 0`: a message takes at least one tick.",
        other: "`latency = 3600000`, an hour.",
        look: "The latencies of all links. A tick is one millisecond.",
    },
    Explanation {
        name: "E13",
        meaning: "A row of the stimuli has the wrong shape.",
        example: "A first line other than `tick,event,values`.",
        other: "`5,D.STOP` with two fields: the third one may be empty, but needs its comma.",
        look: "Each row has a tick, INSTANCE.EVENT, and words NAME=VALUE that are separated by spaces, not by commas.",
    },
    Explanation {
        name: "E14",
        meaning: "A tick or a value of the stimuli is neither a whole number nor a truth value.",
        example: "`DT=T#4ms`: a time is given in ticks, `DT=4`.",
        other: "`1.5,D.START,`: a tick is a whole number.",
        look: "A tick is decimal digits. A value is TRUE, FALSE, or decimal digits with or without `-`.",
    },
    Explanation {
        name: "E15",
        meaning: "A deployment or stimuli are over a limit.",
        example: "A stimulus at a tick over 1,000,000,000,000.",
        other: "257 resources.",
        look: "The limits of bytes, resources, links, entries of a table of latencies, stimuli and their ticks: docs/FORMATS.md, \"Limits\".",
    },
    Explanation {
        name: "E16",
        meaning: "A table of latencies is empty, does not begin at tick 0, does not rise, or has a tick over 1,000,000,000,000.",
        example: "`latencies = [[10, 1]]`: the first entry holds from tick 0 on.",
        other: "`latencies = [[0, 5], [10, 1], [10, 2]]`: the ticks rise strictly.",
        look: "The first number of each entry. The second one is the latency.",
    },
];

/// Refusals of the check for what a declaration says.
pub static OF_CHECKS: [Explanation; 6] = [
    Explanation {
        name: "E20",
        meaning: "A name, an event connection or a link is given twice.",
        example: "`Ab : E_MERGE; AB : E_MERGE;`: letter case makes no difference.",
        other: "A block type called `E_CYCLE`, like one of the event blocks.",
        look: "The names of block types, of ports and variables of a type, of its states, of its algorithms, of instances, in a WITH, of an instance's parameters, and of resources.",
    },
    Explanation {
        name: "E21",
        meaning: "Nothing of the required kind has this name.",
        example: "`F.EO TO W.EJ;` where `W` is an E_SWITCH: it has no event input `EJ`.",
        other: "`S.COLD TO C;` in an application: only composites have ports that are named without an instance.",
        look: "Typing errors; an input where an output is required, or the other way round; an event among the data connections; an instance that a resource lists and the application does not have.",
    },
    Explanation {
        name: "E22",
        meaning: "An expression, a statement or a value has the wrong kind.",
        example: "`X := X + B;` where `B` is a BOOL.",
        other: "`C : E_CYCLE(DT := TRUE);`: `DT` is a TIME.",
        look: "Operands, conditions, selectors and assigned values; the numbers of arguments; inputs that are assigned; EXIT outside loops; initial values and parameters that their types do not contain.",
    },
    Explanation {
        name: "E23",
        meaning: "A data connection leads to a type that does not contain all values of its source.",
        example: "From a DINT to an INT.",
        other: "From an INT to a UINT: it may be negative.",
        look: "The types at the two ends. A range fits a range that contains it; BOOL fits only BOOL.",
    },
    Explanation {
        name: "E24",
        meaning: "Two data connections lead to one port.",
        example: "`A.Q TO W.G; B.Q TO W.G;`: an input has at most one source.",
        other: "The same data connection twice.",
        look: "The ports after TO in the data connections of one network.",
    },
    Explanation {
        name: "E25",
        meaning: "A composite type contains itself, or composites nest more than 16 deep.",
        example: "`FUNCTION_BLOCK F FBS X : F; END_FBS END_FUNCTION_BLOCK`.",
        other: "A type that has an instance of a type that has an instance of the first one.",
        look: "The types of the instances in FBS, from type to type. Types that no instance uses count too.",
    },
];

/// Refusals of the check for mappings, links, stimuli and limits, and faults of files.
pub static OF_MAPPINGS: [Explanation; 6] = [
    Explanation {
        name: "E26",
        meaning: "An instance of the application is in no resource, or in two.",
        example: "A new instance that no `instances` of the deployment lists.",
        other: "The same instance in the lists of `R1` and `R2`.",
        look: "The lists `instances` of all resources together: each instance of the application is in them once. Components of composites are not listed.",
    },
    Explanation {
        name: "E27",
        meaning: "A connection between two resources has no link.",
        example: "`F.EO TO W.EI;` with `F` in `R1`, `W` in `R2`, and no link from `R1` to `R2`.",
        other: "Only a link from `R2` to `R1`: a link goes one way.",
        look: "For each connection of the application, of events and of data, the resources of its two ends.",
    },
    Explanation {
        name: "E28",
        meaning: "A data connection between two resources has no event that brings its value.",
        example: "`F.Q TO W.G;` over a link, with no event connection from `F` to the resource of `W`.",
        other: "An event connection of an output event that does not have the variable in its WITH.",
        look: "Values go over a link only with events: an output event WITH the variable must lead from the same block to some block of that resource.",
    },
    Explanation {
        name: "E29",
        meaning: "A stimulus does not fit its event input.",
        example: "`5,D.STOP,DT=4`: `DT` is not WITH the event `STOP`.",
        other: "A value for an input that a data connection feeds.",
        look: "The instance is one of the application, the event one of its event inputs, and each variable is WITH that event, not connected, given once, and of a type that contains the value.",
    },
    Explanation {
        name: "E30",
        meaning: "The application has more than 4,096 instances, or there are more than 100,000 stimuli in a list.",
        example: "A composite of 100 instances, used 41 times.",
        other: "4,097 event blocks.",
        look: "Instances inside composites count each time that the composite is used, and the composites themselves count too.",
    },
    Explanation {
        name: "file fault",
        meaning: "A file can't be read.",
        example: "A name that no file has, or a folder instead of a file.",
        other: "`-` for two files: standard input is read once.",
        look: "The names in the call. Rules are read first, then block types, declaration, deployment and stimuli, and traces last.",
    },
];

/// Refusals of rules over traces.
pub static OF_RULES: [Explanation; 6] = [
    Explanation {
        name: "E40",
        meaning: "The rules have more than 1,048,576 bytes, or there are more than 1,000.",
        example: "Rules that a tool wrote for each of many ports.",
        other: "A file of another kind, given by mistake: the rules come before the traces.",
        look: "The size of the file, and the number of its `[[rule]]`. A `*` in a pattern matches many ports.",
    },
    Explanation {
        name: "E41",
        meaning: "The rules are no TOML.",
        example: "`see = R2 < VALVE.CLOSED`: a text has quotes, `see = \"R2 < VALVE.CLOSED\"`.",
        other: "The same key twice in one rule.",
        look: "Quotes, brackets and commas. The text is UTF-8, and integers have 64 bits.",
    },
    Explanation {
        name: "E42",
        meaning: "A rule lacks a key, has an unknown one, has a value of another kind, or has the name of a rule before it; or there is no rule.",
        example: "`after` with both `see` and `not`, or with neither.",
        other: "`within = \"10\"`: a number has no quotes.",
        look: "Each `[[rule]]` has a `name`, and the keys of one form: `after`, `within`, and `see` (with `same` and `each` or without) or `not`; `before`, `within`, `see`; `never`, with `from` and `to` or without; `count`, with `least` or `most` or both, and with `every` or without.",
    },
    Explanation {
        name: "E43",
        meaning: "A text of a rule is not a pattern, or no value of a variable meets all its conditions.",
        example: "`VALVE.CLOSED`: a resource and a sign come first, as in `* < VALVE.CLOSED`.",
        other: "`R1 > LAMP.SET ON = TRUE`: a condition has no blanks. `MODE=1 MODE=2`: a line must meet all conditions.",
        look: "A pattern is `RESOURCE > PATH.EVENT VAR=value ..`: a name or `*`; `>`, `<` or `*`; names joined by full stops, at least two, with one `*` in each at most, or `*` for the first or the last ones; then conditions. TRUE and FALSE are compared only by `=` and `<>`.",
    },
    Explanation {
        name: "E44",
        meaning: "A number of a rule is out of its range.",
        example: "`within = -1`: use `before` for a Q before a P.",
        other: "`least = 3` with `most = 2`.",
        look: "`within`, `least` and `most` are 0 to 1,000,000,000,000, `every` is 1 to that, and `least` is not over `most`. Without `most` it is not 0, which asks for nothing.",
    },
    Explanation {
        name: "E45",
        meaning: "The declared system has no event that matches a pattern of a rule, or none whose variables can meet its conditions.",
        example: "`R1 > VALVE.CLOSE` where `VALVE` is in `R2`.",
        other: "`* < VALVE.CLOSED Q=TRUE` where `Q` is not WITH the event, or is a number.",
        look: "Typing errors; the resource of the instance; `>` for an event output, or `<` for an event input; the types of the variables. WARM and STOP of an E_RESTART never come. Without `--decl` the report lists the patterns that no line of a trace matches.",
    },
];

/// Warnings about inputs that are accepted.
pub static OF_WARNINGS: [Explanation; 6] = [
    Explanation {
        name: "L01",
        meaning: "No event input of the block type samples a data input.",
        example: "A data input that is in no WITH of an event input.",
        other: "`REQ WITH A` where the algorithm reads `A` and `B`.",
        look: "The WITH lists of the event inputs. An input that nothing samples keeps its initial value. One to which each instance gives a parameter is not reported.",
    },
    Explanation {
        name: "L02",
        meaning: "A data input of an instance has no source, no parameter and no stimulus.",
        example: "`D : E_DELAY;` with no `DT`: the delay is 0.",
        other: "An input whose data connection leads to another instance.",
        look: "The data connections of the network, the parameters of the instance, and, for an instance of the application, the values of the stimuli. The input keeps its initial value: declare one with `:=` if that is meant.",
    },
    Explanation {
        name: "L03",
        meaning: "A guard reads a data input that the event of its transition does not sample.",
        example: "`IDLE TO RUN := REQ [LEVEL > 3]` where `LEVEL` is WITH another event.",
        other: "A guard over an input that is in no WITH.",
        look: "The WITH of the event in the transition. The guard reads the value of the last event that sampled the input.",
    },
    Explanation {
        name: "L04",
        meaning: "An algorithm reads a data input that no event on a way to it has sampled.",
        example: "`REQ` leads to a state with the action `SUM`, and `SUM` reads an input that is not WITH `REQ`.",
        other: "An algorithm for INIT that reads an input of REQ.",
        look: "The transitions from the initial state to the states that run the algorithm, and the WITH of their events.",
    },
    Explanation {
        name: "L05",
        meaning: "No transitions lead from the initial state to a state.",
        example: "A new state with transitions that leave it and none that enter it.",
        other: "Two states that lead only to each other.",
        look: "The names after TO. The initial state is the first one.",
    },
    Explanation {
        name: "L06",
        meaning: "No transition leaves a state.",
        example: "A chart whose last state has no transition back to the first one.",
        other: "A transition that names the wrong state before TO.",
        look: "Whether the block is meant to react to no event after it has entered this state.",
    },
];

/// More of these warnings.
pub static OF_MORE_WARNINGS: [Explanation; 7] = [
    Explanation {
        name: "L07",
        meaning: "A transition is never taken: an earlier one of the same state clears whenever it would.",
        example: "`A TO B := 1; A TO C := REQ;`",
        other: "`A TO B := REQ; A TO C := REQ [X > 0];`",
        look: "The order of the transitions that leave the state: the first one that is true clears.",
    },
    Explanation {
        name: "L08",
        meaning: "No transition names an event input.",
        example: "An event input of a type whose chart was not extended.",
        other: "`REG` in a transition where `REQ` is meant, if both are event inputs.",
        look: "The transitions. An event that alone samples a variable which the chart reads is not reported.",
    },
    Explanation {
        name: "L09",
        meaning: "No action runs an algorithm.",
        example: "An algorithm that was replaced by another one.",
        other: "A state whose action names the wrong algorithm.",
        look: "The actions of the states.",
    },
    Explanation {
        name: "L10",
        meaning: "No network has an instance of a block type.",
        example: "A type of a library that this application does not use.",
        other: "An instance of `LAMP1` where `LAMP2` is meant.",
        look: "The instances of the application and of the composite types.",
    },
    Explanation {
        name: "L11",
        meaning: "Nothing in a block type uses one of its ports.",
        example: "A data output that no algorithm and no guard names; an event output that no action emits.",
        other: "A port of a composite type that no connection inside names.",
        look: "The algorithms, guards and actions of a basic type; the connections inside a composite type.",
    },
    Explanation {
        name: "L12",
        meaning: "No algorithm assigns a data output WITH an output event.",
        example: "`CNF WITH Q` where each algorithm only reads `Q`.",
        other: "An output event with the WITH of another one.",
        look: "The assignments of the algorithms: the event carries initial values only.",
    },
    Explanation {
        name: "L13",
        meaning: "No connection crosses a link.",
        example: "A link that is left from an earlier mapping.",
        other: "A link from `R2` to `R1` where all connections lead from `R1` to `R2`.",
        look: "The resources of the two ends of each connection of the application.",
    },
];

/// Warnings about what an application does not do.
pub static OF_NETWORK_WARNINGS: [Explanation; 5] = [
    Explanation {
        name: "L14",
        meaning: "A data output is assigned or read, and it is WITH no event output.",
        example: "`CNF WITH Q` where the algorithm assigns `Q` and `R`, and another block reads `R`.",
        other: "A data output of a composite type to which a connection inside leads, and that no event of the type carries.",
        look: "The WITH lists of the event outputs. Readers of the output get its initial value for ever. If only the block itself uses it, it is an internal variable.",
    },
    Explanation {
        name: "L15",
        meaning: "No event connection and no stimulus leads to an instance.",
        example: "A new instance whose data inputs are connected, and whose event inputs are not.",
        other: "`A.CNF TO B.REQ;` where `C.REQ` is meant.",
        look: "The event connections of the network, and, for an instance of the application, the stimuli of this call. Values alone do not make a block react.",
    },
    Explanation {
        name: "L16",
        meaning: "Nothing leads to an event input of an instance, and something leads to another one.",
        example: "`E_REND` with a connection to `EI1` only: it never emits `EO`.",
        other: "A station whose `FREE` is not connected: it takes one part and waits for ever.",
        look: "The event connections to the instance, and the stimuli of this call. STOP and R of an event block may stay open, and so may an event whose variables all have declared values.",
    },
    Explanation {
        name: "L17",
        meaning: "A statement assigns a constant that its variable can't hold.",
        example: "`N := 300;` where `N` is a USINT: the resource stops, for the reason range.",
        other: "`N := -1;` where `N` is a UINT.",
        look: "The type of the variable. docs/FORMATS.md, \"Types and constants\", has the range of each.",
    },
    Explanation {
        name: "L18",
        meaning: "A statement or a guard divides by the constant 0.",
        example: "`X := Y / 0;`: the resource stops, for the reason divide.",
        other: "`IF X MOD 0 = 1 THEN`: a remainder by 0 is 0.",
        look: "The operand after `/` or MOD.",
    },
];

/// Warnings about what never comes, or comes too early.
pub static OF_COURSE_WARNINGS: [Explanation; 5] = [
    Explanation {
        name: "L19",
        meaning: "Transitions that always clear lead from a state back to it.",
        example: "`A TO B := 1; B TO A := 1;`: the resource stops, for the reason steps.",
        other: "`WAIT TO WAIT := 1;` where `WAIT TO WAIT := TICK;` is meant.",
        look: "The conditions `1` of the states on the circle. A state waits if its first transition without an event has a guard.",
    },
    Explanation {
        name: "L20",
        meaning: "An event connection comes from WARM or STOP of an E_RESTART.",
        example: "`POWER.WARM TO MOTOR.INIT;`",
        other: "`POWER.STOP TO VALVE.CLOSE;`: a run has no end that the application sees.",
        look: "Each run is a cold start: connect COLD, or give a stimulus.",
    },
    Explanation {
        name: "L21",
        meaning: "Two labels of a CASE have a value in common.",
        example: "`1: X := 1; 1: X := 2;`: the second is never taken.",
        other: "`1..5: X := 1; 3: X := 2;`",
        look: "The labels of the CASE, from the first one on: the first that contains the value is taken.",
    },
    Explanation {
        name: "L22",
        meaning: "No guard and no algorithm reads an internal variable.",
        example: "A counter that is assigned, and that nothing compares.",
        other: "`LAST := NOW;` where another algorithm reads `LATEST`.",
        look: "The guards and the algorithms. A variable that is to be seen outside is a data output.",
    },
    Explanation {
        name: "L23",
        meaning: "A stimulus at tick 0 comes before the event from COLD that leads to its instance.",
        example: "`0,MOTOR.START,` where `POWER.COLD TO MOTOR.INIT;`",
        other: "A row at tick 0 that sets a variable which INIT sets to its first value.",
        look: "Stimuli come before all else in their tick. Give the row tick 1 if the block is to have started.",
    },
];

/// Reasons of a stop.
pub static OF_STOPS: [Explanation; 3] = [
    Explanation {
        name: "steps",
        meaning: "A resource used up its steps in one tick, and the run stopped.",
        example: "`WHILE TRUE DO X := X + 1; END_WHILE`: the loop does not end.",
        other: "Two blocks that raise each other's events with no delay between them.",
        look: "Event connections that lead in a circle without an E_DELAY or a link; charts that go round by transitions without an event; loops. Each event, tried transition, action, statement and iteration of a loop is a step. If the work of a tick is just large, give `--steps`: the default is 10,000 for each tick of a resource.",
    },
    Explanation {
        name: "divide",
        meaning: "A divisor was 0 in an algorithm or a guard, and the run stopped.",
        example: "`Q := GOOD / TOTAL;` before `TOTAL` has counted anything.",
        other: "`A / (B - C)` where `B` equals `C`.",
        look: "The last line `>` of the trace: the block of that line stopped. Test each divisor of `/` with IF, or in the guard, before it divides. MOD never stops a run: `A MOD 0` is 0.",
    },
    Explanation {
        name: "range",
        meaning: "A number did not fit in an algorithm or a guard, and the run stopped.",
        example: "`N := N + 1;` where `N` is a USINT that holds 255.",
        other: "`D := A - B;` where `D` is a UINT and `B` is greater than `A`.",
        look: "The line of `run --why`: the statement, the value that did not fit, the limits of its variable, and the operands. The block is that of the last line `>` of the trace. Between assignments numbers have 128 bits.",
    },
];
