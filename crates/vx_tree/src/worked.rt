// The worked rows of docs/audit/ROWS.md, as theorems about the definitions.
ghost use Rattle.vx_tree.specs.WorkedRows.{Row1, Row1Fused, Row5, Row6, Row7, Row8, Row9, Row11, Row12, Row13, Row14, Row21, Row22, Row24, Row26};

/// What the worked rows say of types, values, faults and texts follows from the definitions, by computing.
pub fn worked_rows()
    ensures row_1 { Row1 }
    ensures row_1_fused { Row1Fused }
    ensures row_5 { Row5 }
    ensures row_6 { Row6 }
    ensures row_7 { Row7 }
    ensures row_8 { Row8 }
    ensures row_9 { Row9 }
    ensures row_11 { Row11 }
    ensures row_12 { Row12 }
    ensures row_13 { Row13 }
    ensures row_14 { Row14 }
    ensures row_21 { Row21 }
    ensures row_22 { Row22 }
    ensures row_24 { Row24 }
    ensures row_26 { Row26 }
{}
