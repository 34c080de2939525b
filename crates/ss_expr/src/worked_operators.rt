ghost use Rattle.ss_expr.specs.OperatorExamples.{SelectsSwap, SelectsMove, SelectsPass, SelectsHold};
ghost use Rattle.ss_expr.specs.OperatorExamples.{WindowsTakeTheirField, WindowsTakeTheFourth};

/// What selects and windows compute, on small rows.
pub fn operator_examples()
    ensures swap { SelectsSwap }
    ensures moves { SelectsMove }
    ensures pass { SelectsPass }
    ensures hold { SelectsHold }
    ensures field { WindowsTakeTheirField }
    ensures fourth { WindowsTakeTheFourth }
{}
