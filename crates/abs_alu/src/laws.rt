//! The law of the operations: the contract of a function with an empty body.

ghost use Rattle.abs_alu.specs.Laws.{SumsCover, BitwiseCovers, ProductsCover, WordsCover, OperationsAreMonotone};

/// Each operation is sound: its result stands for the machine's for each choice of members. It is monotone: greater operands have a greater
/// result.
pub fn operations_cover()
    ensures sums { SumsCover }
    ensures bitwise { BitwiseCovers }
    ensures products { ProductsCover }
    ensures words { WordsCover }
    ensures monotone { OperationsAreMonotone }
{}
