// Texts in which each primitive is called at its corners.

/// Programs, how many steps they take until nothing is ready, and what the steps show: a primitive is called, and its answer is received by
/// a definition.
pub const PRIMITIVES: &str = r#"
-- numbers at their corners
8 steps: def k x:Int = () run +![9223372036854775807 1 k]
6 c0 -9223372036854775808

8 steps: def k x:Int = () run -![-9223372036854775808 1 k]
6 c0 9223372036854775807

8 steps: def k x:Int = () run *![9223372036854775807 2 k]
6 c0 -2

8 steps: def k x:Int = () run div![-9223372036854775808 -1 k]
6 c0 -9223372036854775808

8 steps: def k x:Int = () run div![-7 2 k]
6 c0 -3

8 steps: def k x:Int = () run div![7 -2 k]
6 c0 -3

8 steps: def k x:Int = () run mod![-9223372036854775808 -1 k]
6 c0 0

8 steps: def k x:Int = () run mod![-7 2 k]
6 c0 -1

8 steps: def k x:Int = () run mod![7 -2 k]
6 c0 1

-- numbers are compared
8 steps: def k x:Bool = () run ==![2 2 k]
6 c0 true

8 steps: def k x:Bool = () run ==![2 -2 k]
6 c0 false

8 steps: def k x:Bool = () run <<![-1 0 k]
6 c0 true

8 steps: def k x:Bool = () run <<![0 0 k]
6 c0 false

8 steps: def k x:Bool = () run <=![0 0 k]
6 c0 true

8 steps: def k x:Bool = () run <=![1 0 k]
6 c0 false

8 steps: def k x:Bool = () run >>![0 -1 k]
6 c0 true

8 steps: def k x:Bool = () run >>![0 0 k]
6 c0 false

8 steps: def k x:Bool = () run >=![0 0 k]
6 c0 true

8 steps: def k x:Bool = () run >=![-1 0 k]
6 c0 false

-- characters, and a truth value
8 steps: def k x:Char = () run chr![-1 k]
6 c0 '\xff'

8 steps: def k x:Char = () run chr![0 k]
6 c0 '\x00'

8 steps: def k x:Char = () run chr![255 k]
6 c0 '\xff'

8 steps: def k x:Char = () run chr![256 k]
6 c0 '\x00'

8 steps: def k x:Char = () run chr![-256 k]
6 c0 '\x00'

8 steps: def k x:Char = () run chr![-257 k]
6 c0 '\xff'

8 steps: def k x:Char = () run chr![-9223372036854775808 k]
6 c0 '\x00'

8 steps: def k x:Int = () run ord!['\xff' k]
6 c0 255

8 steps: def k x:Bool = () run not![true k]
6 c0 false

-- bytes of strings
8 steps: def k x:Int = () run size!["" k]
6 c0 0

8 steps: def k x:Int = () run size!["abc" k]
6 c0 3

8 steps: def k x:Int = () run nth!["abc" 0 k]
6 c0 97

8 steps: def k x:Int = () run nth!["abc" 2 k]
6 c0 99

8 steps: def k x:Int = () run nth!["abc" 3 k]
6 c0 -1

8 steps: def k x:Int = () run nth!["abc" -1 k]
6 c0 -1

8 steps: def k x:Int = () run nth!["abc" -9223372036854775808 k]
6 c0 -1

-- strings that are made
8 steps: def k x:String = () run intstr![0 k]
6 c0 "0"

8 steps: def k x:String = () run intstr![-5 k]
6 c0 "-5"

8 steps: def k x:String = () run intstr![-9223372036854775808 k]
6 c0 "-9223372036854775808"

8 steps: def k x:String = () run intstr![9223372036854775807 k]
6 c0 "9223372036854775807"

8 steps: def k x:String = () run +$!["aA\n" "-5" k]
6 c0 "aA\n-5"

-- printings
3 steps: run print!"ab"
2 print ab

3 steps: run printi!-12
2 print -12

8 steps: def k x:[] = () run pr!["" k]
5 print 
6 c0 []"#;
