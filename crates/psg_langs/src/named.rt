//! Languages with names and lists.

/// A language of blocks, procedures and expressions with types: declarations in unfinished lists, parameters in
/// finished ones, scopes of blocks and bodies.
pub const MINI: &str = "psg 1
sort Unit = ok
sort Type = int bool arr(Type)
sort Types = nil cons(Type,Types)
sort Ent = var(Type) proc(Types) typ(Type)
entity Ent
phylum Stat : Unit
phylum Exp : Type bracketed
phylum TypeX : Type
phylum Decl : Unit
phylum Param : Type
phylum Body : Types
list Decls : Unit of Decl \";\" lines unfinished
list Stats : Unit of Stat \";\" lines unfinished
list Args : Types of Exp \",\" inline unfinished
list Params : Types of Param \",\" inline fixed
op block : Stat scope = \"begin\" in line Decls out line \"do\" in line Stats out line \"end\"
row ok : ok ok
op assign : Stat = refers \":=\" Exp
row ok : var(?T) ?T
op call : Stat = \"call\" refers tight \"(\" tight Args tight \")\"
row ok : proc(?Ts) ?Ts
op while : Stat = \"while\" Exp \"do\" in line Stats out line \"od\"
row ok : bool ok
op skip : Stat = \"skip\"
row ok
op ref : Exp = refers
row ?T : var(?T)
op num : Exp = number
row int
op tru : Exp = \"true\"
row bool
op not : Exp prefix 6 = \"not\" Exp
row bool : bool
op plus : Exp infixl 4 = Exp \"+\" Exp
row int : int int
op cat : Exp infixl 5 = Exp \"&\" Exp
row bool : bool bool
row arr(?T) : arr(?T) arr(?T)
op eq : Exp infix 3 = Exp \"=\" Exp
row bool : ?T ?T
op idx : Exp postfix 8 = Exp tight \"[\" tight Exp tight \"]\"
row ?T : arr(?T) int
op vardecl : Decl = \"var\" declares \":\" TypeX
row ok : var(?T) ?T
op typdecl : Decl = \"type\" declares \"=\" TypeX
row ok : typ(?T) ?T
op procdecl : Decl = \"proc\" declares Body
row ok : proc(?Ts) ?Ts
op body : Body scope = \"(\" tight Params tight \")\" Stat
row ?Ts : ?Ts ok
op param : Param = declares \":\" TypeX
row ?T : var(?T) ?T
op tint : TypeX = \"int\"
row int
op tbool : TypeX = \"bool\"
row bool
op tarr : TypeX prefix 5 = \"array\" TypeX
row arr(?T) : ?T
op tname : TypeX = refers
row ?T : typ(?T)
nil Decls ok
cell Decls ok : ok ok
nil Stats ok
cell Stats ok : ok ok
nil Args nil
cell Args cons(?T,?Ts) : ?T ?Ts
nil Params nil
cell Params cons(?T,?Ts) : ?T ?Ts
hole Stat ok by skip
hole Exp ?T by ref($a)
hole TypeX ?T by tname($a)
hole Decl ok by vardecl($a,tname($b))
hole Param ?T by param($a,tname($b))
hole Body ?Ts
case nil by body([],skip)
case cons(?T,?Ts) by body([param($a,tname($b))|hole(Params,?Ts)],skip)
hole Decls ok by []
hole Stats ok by []
hole Args ?Ts
case nil by []
case cons(?T,?Ts) by [hole(Exp,?T)|hole(Args,?Ts)]
hole Params ?Ts
case nil by []
case cons(?T,?Ts) by [param($a,tname($b))|hole(Params,?Ts)]
declare Decls var(?T) : ok by vardecl($it,tname($a))
declare Decls proc(?Ts) : ok by procdecl($it,hole(Body,?Ts))
declare Decls typ(?T) : ok by typdecl($it,tname($a))
";

/// A language of items that each add to the value of their list. A list cannot be lengthened without changing its
/// value, so the language is refused.
pub const TINY: &str = "psg 1
sort Bit = one two
sort Seq = nil cons(Bit,Seq)
entity Bit
phylum Item : Bit
list Items : Seq of Item \",\" inline unfinished
op a : Item = \"a\" declares
row one : one
op b : Item = \"b\" declares
row two : two
nil Items nil
cell Items cons(?B,?S) : ?B ?S
hole Item ?B
case one by a($x)
case two by b($x)
hole Items ?S
case nil by []
case cons(?B,?S) by [hole(Item,?B)|hole(Items,?S)]
declare Items one : one by a($it)
declare Items two : two by b($it)
";

/// The language of definitions: a program is the lines of a definition file, with names of sorts, constructors, phyla,
/// operators and variables in spaces of their own.
pub const SELF: &str = "psg 2
sort Unit = ok
space sorts : Unit
space cons : Unit
space kinds : Unit
space ops : Unit
space vars : Unit
phylum Line : Unit
phylum Con : Unit
phylum Arg : Unit
phylum Level : Unit
phylum Item : Unit
phylum Row : Unit
phylum Term : Unit
phylum Spec : Unit
list Lines : Unit of Line \";\" lines unfinished
list Cons : Unit of Con \",\" inline fixed
list Args : Unit of Arg \",\" inline fixed
list Items : Unit of Item \",\" inline unfinished
list Rows : Unit of Row \"|\" lines unfinished
list Terms : Unit of Term \",\" inline unfinished
list Specs : Unit of Spec \",\" inline unfinished
op sortline : Line = \"sort\" declares@sorts \"=\" Cons
row ok : ok ok
op phyline : Line = \"phylum\" declares@kinds \":\" refers@sorts
row ok : ok ok
op brkline : Line = \"bracketed\" declares@kinds \":\" refers@sorts
row ok : ok ok
op opline : Line = \"op\" declares@ops \":\" refers@kinds Level \"=\" Items \"rows\" Rows
row ok : ok ok ok ok ok
op holeline : Line = \"hole\" refers@kinds Term \"by\" Spec
row ok : ok ok ok
op con : Con = declares@cons tight \"(\" tight Args tight \")\"
row ok : ok ok
op arg : Arg = refers@sorts
row ok : ok
op lplain : Level = \"plain\"
row ok
op lpre : Level = \"prefix\" number
row ok
op lpost : Level = \"postfix\" number
row ok
op linl : Level = \"infixl\" number
row ok
op linr : Level = \"infixr\" number
row ok
op linn : Level = \"infix\" number
row ok
op iword : Item = text
row ok
op islot : Item = refers@kinds
row ok : ok
op ispace : Item = \"space\"
row ok
op itight : Item = \"tight\"
row ok
op iline : Item = \"line\"
row ok
op iin : Item = \"in\"
row ok
op iout : Item = \"out\"
row ok
op rowline : Row = \"row\" Term \":\" Terms
row ok : ok ok
op tcon : Term = refers@cons tight \"(\" tight Terms tight \")\"
row ok : ok ok
op tvar : Term = \"%\" tight refers@vars
row ok : ok
op spec : Spec = refers@ops tight \"(\" tight Specs tight \")\"
row ok : ok ok
nil Lines ok
cell Lines ok : ok ok
nil Cons ok
cell Cons ok : ok ok
nil Args ok
cell Args ok : ok ok
nil Items ok
cell Items ok : ok ok
nil Rows ok
cell Rows ok : ok ok
nil Terms ok
cell Terms ok : ok ok
nil Specs ok
cell Specs ok : ok ok
hole Line ok by phyline($a,$b)
hole Con ok by con($a,[])
hole Arg ok by arg($a)
hole Level ok by lplain
hole Item ok by ispace
hole Row ok by rowline(tvar($a),[])
hole Term ok by tvar($a)
hole Spec ok by spec($a,[])
hole Lines ok by []
hole Cons ok by []
hole Args ok by []
hole Items ok by []
hole Rows ok by []
hole Terms ok by []
hole Specs ok by []
declare@sorts Lines ok : ok by sortline($it,[])
declare@cons Lines ok : ok by sortline($a,[con($it,[])])
declare@kinds Lines ok : ok by phyline($it,$a)
declare@ops Lines ok : ok by opline($it,$a,lplain,[],[])
";
