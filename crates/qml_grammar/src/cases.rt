ghost use Rattle.qml_grammar.specs.FaultCases.{AreAnswered, semicolon_cases, line_cases, word_cases, unsupported_cases, type_name_cases, handler_cases, import_cases, statement_cases, end_cases, level_cases, node_cases};
ghost use Rattle.qml_grammar.specs.PrintCases.{ArePrinted, expr_prints, EscapeCase, IfCase, WhileCase, EmptyForCase, ForCase, BlockForCase, ElseIfCase, BlockCase, EmptyObjectCase, InitialiserCase, PropertyCase, SignalCase, MethodCase, ObjectCase, HandlerCase};
ghost use Rattle.qml_grammar.specs.TreeCases.{ValuesCase, ObjectsCase, MembersCase, StatementsCase, ImportsCase};

/// Short documents have the first faults that they should have, or none: a law with nothing to run. The
/// documents and their faults stand in specs/FaultCases.antt.
pub fn first_faults()
    ensures semicolons { AreAnswered semicolon_cases }
    ensures line_ends { AreAnswered line_cases }
    ensures words { AreAnswered word_cases }
    ensures unsupported { AreAnswered unsupported_cases }
    ensures type_names { AreAnswered type_name_cases }
    ensures handlers { AreAnswered handler_cases }
    ensures imports { AreAnswered import_cases }
    ensures statements { AreAnswered statement_cases }
    ensures text_end { AreAnswered end_cases }
    ensures levels { AreAnswered level_cases }
    ensures nodes { AreAnswered node_cases }
{}

/// Short documents declare what they should, with the places that they should have: a law with nothing to
/// run. The documents stand in specs/TreeCases.antt.
pub fn declarations()
    ensures values { ValuesCase }
    ensures objects { ObjectsCase }
    ensures members { MembersCase }
    ensures statements { StatementsCase }
    ensures imports { ImportsCase }
{}

/// Short expressions, statements and declarations have the canonical texts that they should have: a law
/// with nothing to run. They stand in specs/PrintCases.antt.
pub fn canonical_texts()
    ensures exprs { ArePrinted expr_prints }
    ensures escapes { EscapeCase }
    ensures if_text { IfCase }
    ensures while_text { WhileCase }
    ensures empty_for_text { EmptyForCase }
    ensures for_text { ForCase }
    ensures block_for_text { BlockForCase }
    ensures else_if_text { ElseIfCase }
    ensures block_text { BlockCase }
    ensures empty_object_text { EmptyObjectCase }
    ensures initialiser_text { InitialiserCase }
    ensures property_text { PropertyCase }
    ensures signal_text { SignalCase }
    ensures method_text { MethodCase }
    ensures object_text { ObjectCase }
    ensures handler_text { HandlerCase }
{}
