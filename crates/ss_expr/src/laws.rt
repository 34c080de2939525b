ghost use Rattle.ss_expr.specs.Laws.{BracketsKeepTheTree, OneExpression, PrintedIsRead};

/// A text is that of one expression at most.
pub fn one_expression()
    ensures { OneExpression }
{}

/// A form whose operands are all atoms or in brackets is read as its tree, however its tokens are spaced.
pub fn brackets_keep_the_tree()
    ensures { BracketsKeepTheTree }
{}

/// A tree that is written out with all its brackets, and a blank behind each token, is read as that tree.
pub fn printed_is_read()
    ensures { PrintedIsRead }
{}
