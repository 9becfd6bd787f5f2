// The grammar of generated trees: by what a tree gives, the source text of its node over its children,
// so that it may stand wherever an operand does.
//
// `T1` stands for a tree that gives a truth value, `N1`, `F1`, `G1`, `C1`, `W1`, `D1`, `I1`, `S1`, `P1` for a whole
// number, a float of 64 and of 32 bits, a decimal of few and of most digits, a day, an instant, a text, a pair of
// numbers, and `X1` for what the node gives; the same of them in one row is the same tree. `#t`, `#n`, `#f`, `#g`,
// `#c`, `#w`, `#d`, `#i`, `#s` and `#x` stand for literals.

/// What a tree gives.
#[derive(Clone, Copy)]
pub enum Kind {
    Truth,
    Number,
    Text,
    Pair,
    Float,
    Single,
    Decimal,
    Wide,
    Day,
    Instant,
}

pub const KINDS: [Kind; 10] = [
    Kind::Truth,
    Kind::Number,
    Kind::Text,
    Kind::Pair,
    Kind::Float,
    Kind::Single,
    Kind::Decimal,
    Kind::Wide,
    Kind::Day,
    Kind::Instant,
];

impl Kind {
    /// The fields of the scope that give it.
    pub fn fields(self) -> &'static [&'static str] {
        match self {
            Kind::Truth => &["m"],
            Kind::Number => &["a.x", "a.y", "b"],
            Kind::Text => &["s"],
            Kind::Pair => &["a"],
            Kind::Float => &["f", "g"],
            Kind::Single => &["h"],
            Kind::Decimal => &["p"],
            Kind::Wide => &["w"],
            Kind::Day => &["d"],
            Kind::Instant => &["t"],
        }
    }

    /// Literals that give it, null among them; of a pair, a pack of them.
    pub fn literals(self) -> &'static [&'static str] {
        match self {
            Kind::Truth => &["true", "false", "null::bool?"],
            Kind::Number => &["0", "1", "3", "2147483647", "null::i32?"],
            Kind::Text => &["\"ab\"", "\"a%\"", "\"_b%\"", "null::utf8?"],
            Kind::Pair => &["pack(x: 1, y: 2)", "pack(x: null::i32?, y: 2)?"],
            Kind::Float => &FLOAT_LITERALS,
            Kind::Single => &SINGLE_LITERALS,
            Kind::Decimal => &DECIMAL_LITERALS,
            Kind::Wide => &WIDE_LITERALS,
            Kind::Day => &DAY_LITERALS,
            Kind::Instant => &INSTANT_LITERALS,
        }
    }

    /// Nodes that give it and no other kind.
    pub fn nodes(self) -> &'static [&'static str] {
        match self {
            Kind::Truth => &TRUTHS,
            Kind::Number => &NUMBERS,
            Kind::Text => &TEXTS,
            Kind::Pair => &PAIRS,
            Kind::Float => &FLOATS,
            Kind::Single => &SINGLES,
            Kind::Decimal => &DECIMALS,
            Kind::Wide => &WIDES,
            Kind::Day => &DAYS,
            Kind::Instant => &INSTANTS,
        }
    }
}

const FLOAT_LITERALS: [&str; 6] = [
    "\"1.5\"::f64",
    "\"0.1\"::f64",
    "\"-0.0\"::f64",
    "\"inf\"::f64",
    "\"nan\"::f64",
    "null::f64?",
];

const SINGLE_LITERALS: [&str; 5] = [
    "\"0.1\"::f32",
    "\"-0.0\"::f32",
    "\"3.4028235e38\"::f32",
    "\"nan\"::f32",
    "null::f32?",
];

const DECIMAL_LITERALS: [&str; 4] = [
    "\"9.99\"::decimal(6, 2)",
    "\"-0.01\"::decimal(6, 2)",
    "\"9999.99\"::decimal(6, 2)",
    "null::decimal(6, 2)?",
];

const WIDE_LITERALS: [&str; 4] = [
    "\"9999999999999999999999999999.9999999999\"::decimal(38, 10)",
    "\"-0.0000000001\"::decimal(38, 10)",
    "\"12.5\"::decimal(38, 10)",
    "null::decimal(38, 10)?",
];

const DAY_LITERALS: [&str; 3] = [
    "\"2024-02-29\"::date",
    "\"1969-12-31\"::date",
    "null::date?",
];

const INSTANT_LITERALS: [&str; 3] = [
    "\"2024-01-31T10:15:30.25Z\"::timestamp(us, \"UTC\")",
    "\"1969-12-31T23:59:59.999999Z\"::timestamp(us, \"UTC\")",
    "null::timestamp(us, \"UTC\")?",
];

const TRUTHS: [&str; 49] = [
    "(T1 and T2)",
    "(T1 or T2)",
    "(not T1)",
    "(N2 <= N1 < #n)",
    "(#n < N1 <= N2)",
    "(S1 like #s)",
    "(S1 not like #s)",
    "(S1 ilike #s)",
    "(S1 not ilike #s)",
    "starts_with(S1, #s)",
    "starts_with(S1, S2)",
    "(byte_length(S1) < 3i64)",
    "list_contains([0, 3, 1]::list(i32), N1)",
    "list_contains([3, null]::list(i32?), N1)",
    "list_contains(['ab']::list(utf8)?, S1)",
    "(T1 is null)",
    "(N1 is not null)",
    "(P1 is null)",
    "(P1{} is null)",
    "($ is null)",
    // two bounds of one field, which may be fused
    "(a.x >= #n and #n > a.x)",
    "(b > #n and b <= #n)",
    "(N1 = #n)",
    "(N1 != N2)",
    "(N1 < #n)",
    "(N1 >= #n)",
    "(S1 = #s)",
    "(T1 > #t)",
    "(F1 = #f)",
    "(F1 < F2)",
    "(#f <= F1 < F2)",
    "(F1 is null)",
    "(f >= #f and f < #f)",
    "(G1 < #g)",
    "(G1 = G2)",
    "(#g <= G1 < G2)",
    "(C1 <= #c)",
    "(C1 != C2)",
    "(W1 <= #w)",
    "(W1 = W2)",
    "(w > #w and w <= #w)",
    "(D1 >= #d)",
    "(D1 = D2)",
    "(d > #d and #d > d)",
    "(I1 < #i)",
    "(I1 = I2)",
    "(t >= #i and t < #i)",
    "fill_null(T1, #t)",
    "cast(T1 as bool?)",
];

const NUMBERS: [&str; 10] = [
    "(N1 + #n)",
    "(N1 - N2)",
    "(N1 * #n)",
    "(N1 / #n)",
    "(N1 % #n)",
    "P1.x",
    "P1.y",
    "fill_null(N1, #n)",
    "cast(N1 as i32)",
    "cast(N1 as i32?)",
];

const FLOATS: [&str; 7] = [
    "(F1 + #f)",
    "(F1 + F2)",
    "(F1 - F2)",
    "(F1 * #f)",
    "(F1 / F2)",
    "fill_null(F1, #f)",
    "cast(F1 as f64?)",
];

const SINGLES: [&str; 6] = [
    "(G1 + #g)",
    "(G1 - G2)",
    "(G1 * #g)",
    "(G1 / G2)",
    "fill_null(G1, #g)",
    "cast(G1 as f32?)",
];

const DECIMALS: [&str; 4] = [
    "(C1 + #c)",
    "(C1 - C2)",
    "fill_null(C1, #c)",
    "cast(C1 as decimal(6, 2)?)",
];

const WIDES: [&str; 4] = [
    "(W1 + #w)",
    "(W1 - W2)",
    "fill_null(W1, #w)",
    "cast(W1 as decimal(38, 10)?)",
];

const DAYS: [&str; 2] = ["fill_null(D1, #d)", "cast(D1 as date?)"];

const INSTANTS: [&str; 2] = ["fill_null(I1, #i)", "cast(I1 as timestamp(us, \"UTC\")?)"];

const TEXTS: [&str; 2] = ["fill_null(S1, #s)", "cast(S1 as utf8?)"];

const PAIRS: [&str; 4] = [
    "pack(x: N1, y: N2)",
    "pack(x: N1, y: N2)?",
    "pack(z: S1, y: N2, x: N3){x, y}",
    "P1{~}",
];

/// Nodes that give what their children give.
pub const OF_ANY_KIND: [&str; 15] = [
    "pack(q: N1, p: X2).p",
    "pack(q: N1, p: X2)?.p",
    "zip(X1, X2, T3)",
    "zip(X1, X2, #t)",
    "mask(X1, N2 is null)",
    "mask(X1, S2 is not null)",
    "case when T1 then X2 else X3 end",
    "case when T1 then X2 else #x end",
    "case when T1 then X2 when T3 then #x else X2 end",
    "case when T1 then X2 end",
    // null is replaced, or stays
    "case when X1 is null then #x else X1 end",
    "case when X1 is not null then X1 else #x end",
    // the first condition decides
    "case when #t then X1 else X2 end",
    "case when #t then X1 when T2 then X3 else #x end",
    "case when #t then X1 end",
];
