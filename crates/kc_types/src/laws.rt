//! What is proved of subtyping.

ghost use Rattle.kc_types.specs.Examples.{ExamplesHold};
ghost use Rattle.kc_types.specs.Endless.{Endless};
ghost use Rattle.kc_types.specs.Decided.{DecidedIsExact, DecidedIsTransitive, QuestionsEnd, SubIsBelow, BelowIsTransitive, HasEndingHeads, HasEndingTrees};
ghost use Rattle.kc_types.specs.Laws.{BelowIsSound, SupertypesAreListed, HasInstances, BelowGrows, BelowIsReflexive, BelowHasInstances, ChoicesCompose, StarsAreAbove, UpwardsIsAbove, DownwardsIsBelow, HasValidHeads, SubIsPerhaps, BelowIsFormed, FormedIsSub, BelowComposes, ViewIsSound, CoreIsPart, CoreHasWhole, CoreAgrees, CoreIsTransitive, CoreIsReflexive, CoreHasHeads, CoreHasInstances, CoreKeepsPutting};

/// What the recursion without a rule of transitivity accepts is a subtype.
pub fn below_is_sound()
    ensures { BelowIsSound }
{}

/// Where no class leads back to itself, the list of a class's supertypes has all of them, and nothing else.
pub fn supertypes_are_listed()
    ensures { SupertypesAreListed }
{}

/// A class type is below its instance at a superclass.
pub fn has_instances()
    ensures { HasInstances }
{}

/// What the recursion accepts at one height it accepts at each greater one.
pub fn below_grows()
    ensures { BelowGrows }
{}

/// The recursion takes each formed type as below itself.
pub fn below_is_reflexive()
    ensures { BelowIsReflexive }
{}

/// The recursion takes a formed class type as below its instance at a superclass.
pub fn below_has_instances()
    ensures { BelowHasInstances }
{}

/// Arguments that give way to bounds twice might do so at once.
pub fn choices_compose()
    ensures { ChoicesCompose }
{}

/// Arguments that keep their bounds as these are written keep them as a star reads them.
pub fn stars_are_above()
    ensures { StarsAreAbove }
{}

/// A type taken upwards is above what it is with any arguments that are contained and keep their bounds.
pub fn upwards_is_above()
    ensures { UpwardsIsAbove }
{}

/// A type taken downwards is below what it is with any arguments that are contained and keep their bounds.
pub fn downwards_is_below()
    ensures { DownwardsIsBelow }
{}

/// Where no class leads back to itself and parameters stand where their variance lets them, what is below by the rules, by way of formed
/// types, is refused at no height.
pub fn sub_is_perhaps()
    ensures { SubIsPerhaps }
{}

/// The heads of the examples, with classes of each variance, bounds and a class of functions among them, are valid.
pub fn has_valid_heads()
    ensures { HasValidHeads }
{}

/// What the recursion accepts of formed types is below by the rules, by way of formed types.
pub fn below_is_formed()
    ensures { BelowIsFormed }
{}

/// What is below by way of formed types is below.
pub fn formed_is_sub()
    ensures { FormedIsSub }
{}

/// The recursion is transitive, up to its height: it refuses at no height what is below by way of a third type.
pub fn below_composes()
    ensures { BelowComposes }
{}

/// Where the recursion and the one that says yes beyond its height agree, the answer is the relation's.
pub fn decided_is_exact()
    ensures { DecidedIsExact }
{}

/// What is below by way of a third type is below, where that is decided.
pub fn decided_is_transitive()
    ensures { DecidedIsTransitive }
{}

/// Over hierarchies with the limits on `in`, where bounds of classes' parameters are loose, as `Any?` and `Comparable<*>`, each question is
/// decided at some height.
pub fn questions_end()
    ensures { QuestionsEnd }
{}

/// Over these hierarchies what is below by the rules, by way of formed types, is below by the recursion.
pub fn sub_is_below()
    ensures { SubIsBelow }
{}

/// Over these hierarchies the recursion is transitive.
pub fn below_is_transitive()
    ensures { BelowIsTransitive }
{}

/// The heads of the examples are such a hierarchy, and so are heads with bounds that name their own parameter.
pub fn has_ending_heads()
    ensures { HasEndingHeads }
{}

/// So are heads that trees stand for, of `Any` and of a class with a type parameter.
pub fn has_ending_trees()
    ensures { HasEndingTrees }
{}

/// A value that is of a class or below it has the view of its declared type at this class.
pub fn view_is_sound()
    ensures { ViewIsSound }
{}

/// The examples are what the definitions give.
pub fn examples_hold()
    ensures { ExamplesHold }
{}

/// In hierarchies that break a rule on supertypes' arguments or on bounds there are questions that lead on to themselves and get a yes at
/// no height.
pub fn questions_are_endless()
    ensures { Endless }
{}

/// The heads of the example, a class with a variant superclass among them, are valid.
pub fn core_has_heads()
    ensures { CoreHasHeads }
{}

/// On the core, over valid heads, the relation by rules and the recursion without a rule of transitivity agree.
pub fn core_agrees()
    ensures { CoreAgrees }
{}

/// On the core, over valid heads, the recursion is transitive.
pub fn core_is_transitive()
    ensures { CoreIsTransitive }
{}

/// On the core, over valid heads, each type is below itself.
pub fn core_is_reflexive()
    ensures { CoreIsReflexive }
{}

/// On the core, over valid heads, a class type is below its instance at a superclass.
pub fn core_has_instances()
    ensures { CoreHasInstances }
{}

/// On the core, over valid heads, types put in for type parameters keep what is below.
pub fn core_keeps_putting()
    ensures { CoreKeepsPutting }
{}

/// What is below in the core is below in the whole relation.
pub fn core_is_part()
    ensures { CoreIsPart }
{}

/// All heads of the core are a part of heads.
pub fn core_has_whole()
    ensures { CoreHasWhole }
{}
