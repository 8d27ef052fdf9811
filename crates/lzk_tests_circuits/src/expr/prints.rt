//! Sources and their printed texts, by an independent implementation.

/// Texts, and what is printed of them.
pub const PRINTS: [(&[u8], &[u8]); 18] = [
    (
        b"field goldilocks\npublic y\nprivate x\nassert (x) * x = y # square\n",
        b"field goldilocks\npublic y\nprivate x\nassert x * x = y\n",
    ),
    (
        b"field gf2_128\nprivate n0\t n1\npublic n2\n  assert ((n1*n2 + -n0)*n1*(0x1 * n0 * n0+n0 * -n0 + -n0*0x1*n0)) * n2--n0 * -n1 * 0062=(000*n1-n\
            0 * n1) - -(n2 * n0 * -n2 - n1) # x\nlet n3 = 001*0x1\n  assert -0 - ((n3 * -0x3+340282366920938463463374607431768211455*n2)*n0*n2 + -n1 \
            * 35 * (-n2*n3 + n0-0x1 * -0x0 * n0))=n0 * n3 * (n1 * n1 * n3) # x\nprivate n4\t n5\t n6\nlet n7 = 001*n0*((n0 * 91)*n2)\n\
            public n8\t n9\t n10\nprivate n11\t n12\t n13\n# \xff comment @\n",
        b"field gf2_128\nprivate n0\nprivate n1\npublic n2\n\
            assert ((n1 * n2 + -n0) * n1 * (1 * n0 * n0 + n0 * -n0 + -n0 * 1 * n0)) * n2 - -n0 * -n1 * 62 = (0 * n1 - n0 * n1) - -(n2 * n0 * -n2 - n1)\
            \nlet n3 = 1 * 1\nassert -0 - ((n3 * -3 + 340282366920938463463374607431768211455 * n2) * n0 * n2 + -n1 * 35 * (-n2 * n3 + n0 - 1 * -0 * n\
            0)) = n0 * n3 * (n1 * n1 * n3)\nprivate n4\nprivate n5\nprivate n6\nlet n7 = 1 * n0 * ((n0 * 91) * n2)\npublic n8\npublic n9\n\
            public n10\nprivate n11\nprivate n12\nprivate n13\n",
    ),
    (
        b"field goldilocks\nprivate n0\t n1\nlet n2 = -n1 * -n1\n\
            let n3 = (n1 * (n0 * n2-n0 * n2 * n1) * -n1 - n1)+0 - n0*(-(0078+n2 * n1) * -(n2 * n2 - n0)--18446744069414584320)\n\
            assert -(((n2*n3) * 0xffffffff00000000) - n3) = n3 * 0x0 * n1 - n0 * -n3 * n0",
        b"field goldilocks\nprivate n0\nprivate n1\nlet n2 = -n1 * -n1\n\
            let n3 = (n1 * (n0 * n2 - n0 * n2 * n1) * -n1 - n1) + 0 - n0 * (-(78 + n2 * n1) * -(n2 * n2 - n0) - -18446744069414584320)\n\
            assert -((n2 * n3) * 18446744069414584320 - n3) = n3 * 0 * n1 - n0 * -n3 * n0\n",
    ),
    (
        b"field goldilocks\nprivate n0\t n1\t n2\nlet n3 = 1 - 0 * (n1--(n0*n2 + -n2 * n0) + n2*0xff93b02a259e2842)\n\n\
            let n4 = 0x0 + ((0084) * (n2 * n3)) * (-(n3*-n1-n0))\n \t\r\n  assert n0=0xffffffff00000000*(n4 + 0xE8F4497EE498A7DF * n3) # x\n  assert (\
            (-n2 * n3 * n1 + -17834317712379379143 * n0) * (n4)) * (-0011905016743614117540) + n4 * n1=(-n4 - n1 * n1) # x\n\
            let n5 = n4*n4\n  assert n0 * 000 * -n0 + n2 * (-n2*001)=n2 * n0-(n3 + n5*-n0) * n3 # x\npublic n6\n# \xff comment @\n\
            let n7 = 0x0 * -0xb502a6ff3776aadb-(n3 * 1 * (n4 * n5)) + 0x1",
        b"field goldilocks\nprivate n0\nprivate n1\nprivate n2\nlet n3 = 1 - 0 * (n1 - -(n0 * n2 + -n2 * n0) + n2 * 18416256996314327106)\n\
            let n4 = 0 + (84 * (n2 * n3)) * -(n3 * -n1 - n0)\nassert n0 = 18446744069414584320 * (n4 + 16786122520466597855 * n3)\n\
            assert ((-n2 * n3 * n1 + -17834317712379379143 * n0) * n4) * -11905016743614117540 + n4 * n1 = -n4 - n1 * n1\nlet n5 = n4 * n4\n\
            assert n0 * 0 * -n0 + n2 * (-n2 * 1) = n2 * n0 - (n3 + n5 * -n0) * n3\npublic n6\nlet n7 = 0 * -13043171085895772891 - n3 * 1 * (n4 * n5) + 1\n",
    ),
    (
        b"field goldilocks\nprivate n0\t n1\t n2\nlet n3 = n0 * n0 - (n2) * (-n1 - n2)-0xFFFFFFFF00000000*(005026799133147164969-(n2 * n1 * 0018446744\
            069414584320 - n0) * -n1)*n0\nprivate n4\n  assert n1 * 1 * ((-n3+0xffffffff00000000 * n4)) + 3-n0*((n2)-n0)*-((n3 * n2 * n2 + 18446744069\
            414584320*n1*0x0) * n0 + (n4))=(n3*n0 + n0) + 1 * -(n4--n3) * (n2 * n0 * n1) # x\n  assert 18182850098510389297 * n2 * n4-n2-((n3) * 0x1-(\
            n0 - n4 * n3+n3 * -n0 * n1) * (n3-n1+n4) - n1) * n0=(n4*n4*n2) + n3 + (n0 * n3 + n1 * -n4)*-n0 # x\n  assert 0xFFFFFFFF00000000+0x3F*00129\
            86973401656898728*(n3*n3*(n1*-n1*-n0-n2))=n1 * -n4 * (n4) - 0xffffffff00000000*-(n3 * n1 * n3 - n2) # x\n  assert n2=(n1 + 0xFFFFFFFF00000\
            000+n0*-18446744069414584320) - n1 * (n4) # x\nprivate n5\n\
            let n6 = (-0x1 + -n5) + -n3 + (008965892518136820749*n2-(n1 + n1*n5 + n1)*n4)*n1*((n0)*-n4 + -(n3 - n5)--n2*(n3+-0x27 * -0x0)*(n0 * 0x3b30\
            34c2151ca8e3 * n2 - n3))\n",
        b"field goldilocks\nprivate n0\nprivate n1\nprivate n2\n\
            let n3 = n0 * n0 - n2 * (-n1 - n2) - 18446744069414584320 * (5026799133147164969 - (n2 * n1 * 18446744069414584320 - n0) * -n1) * n0\n\
            private n4\nassert n1 * 1 * (-n3 + 18446744069414584320 * n4) + 3 - n0 * (n2 - n0) * -((n3 * n2 * n2 + 18446744069414584320 * n1 * 0) * n\
            0 + n4) = (n3 * n0 + n0) + 1 * -(n4 - -n3) * (n2 * n0 * n1)\n\
            assert 18182850098510389297 * n2 * n4 - n2 - (n3 * 1 - (n0 - n4 * n3 + n3 * -n0 * n1) * (n3 - n1 + n4) - n1) * n0 = n4 * n4 * n2 + n3 + (n\
            0 * n3 + n1 * -n4) * -n0\nassert 18446744069414584320 + 63 * 12986973401656898728 * (n3 * n3 * (n1 * -n1 * -n0 - n2)) = n1 * -n4 * n4 - 18\
            446744069414584320 * -(n3 * n1 * n3 - n2)\nassert n2 = (n1 + 18446744069414584320 + n0 * -18446744069414584320) - n1 * n4\nprivate n5\n\
            let n6 = (-1 + -n5) + -n3 + (8965892518136820749 * n2 - (n1 + n1 * n5 + n1) * n4) * n1 * (n0 * -n4 + -(n3 - n5) - -n2 * (n3 + -39 * -0) * \
            (n0 * 4264966855302359267 * n2 - n3))\n",
    ),
    (
        b"field goldilocks\nprivate n0\t n1\t n2\npublic n3\n\
            \n  assert n2 * -((n2*-n0*-n3+n1 * n0 - 18446744069414584320 * n1) * n3--0x1*(n3)*(n1*-n2+n1*n0)) * 0018446744069414584320=-0x2 # x\n\
            private n4\n\n",
        b"field goldilocks\nprivate n0\nprivate n1\nprivate n2\npublic n3\n\
            assert n2 * -((n2 * -n0 * -n3 + n1 * n0 - 18446744069414584320 * n1) * n3 - -1 * n3 * (n1 * -n2 + n1 * n0)) * 18446744069414584320 = -2\n\
            private n4\n",
    ),
    (
        b"field goldilocks\npublic n0\t n1\n  assert 0018446744069414584320*(-0092*-n1 + n0)*(n0*(n1*0018446744069414584320*0xE9BC1EE55760BBE1))=-n1+(\
            0) * 000-n0*n1 # x\nlet n2 = n1 * (-(n1*n0)*n0) + n1\npublic n3\t n4\nprivate n5\t n6\t n7\n",
        b"field goldilocks\npublic n0\npublic n1\nassert 18446744069414584320 * (-92 * -n1 + n0) * (n0 * (n1 * 18446744069414584320 * 1684237067682111\
            3825)) = -n1 + 0 * 0 - n0 * n1\nlet n2 = n1 * (-(n1 * n0) * n0) + n1\npublic n3\npublic n4\nprivate n5\nprivate n6\nprivate n7\n",
    ),
    (
        b"field goldilocks\nprivate n0\t n1\n  assert (-(001-n0*-n1+-0xffffffff00000000*-n0) + n0*(n1 - n1 * n1 * n1)) - -n0=-n1*-18446744069414584320\
            *(-n1) # x\npublic n2\t n3\t n4\nlet n5 = 0x846d9020c6959d6d * 0 * ((n4*n0)*n0-(n0*-n4*n0) * n1) - (n2 * -(-n1*n2*n4+n1)-(0017432523303785\
            201265*n4*n0+-n0) * n2 * n2) * 0x28 * -(n0) - -((n0 * n2-n3-n1)*n3)*n1*(n2 * -n1)\n\n\
            let n6 = n0 * (n5 + 000) * n5\n  assert n1 - 0x1*0x1=3 * (n1*-n1*-n2) * -1 # x\n",
        b"field goldilocks\nprivate n0\nprivate n1\nassert (-(1 - n0 * -n1 + -18446744069414584320 * -n0) + n0 * (n1 - n1 * n1 * n1)) - -n0 = -n1 * -1\
            8446744069414584320 * -n1\npublic n2\npublic n3\npublic n4\n\
            let n5 = 9542441655912996205 * 0 * ((n4 * n0) * n0 - (n0 * -n4 * n0) * n1) - (n2 * -(-n1 * n2 * n4 + n1) - (17432523303785201265 * n4 * n\
            0 + -n0) * n2 * n2) * 40 * -n0 - -((n0 * n2 - n3 - n1) * n3) * n1 * (n2 * -n1)\nlet n6 = n0 * (n5 + 0) * n5\n\
            assert n1 - 1 * 1 = 3 * (n1 * -n1 * -n2) * -1\n",
    ),
    (
        b"field goldilocks\npublic n0\t n1\t n2\n\n  assert 0xffffffff00000000=(n2 * n1 + n0+n1)*(-n0*003119490585967393839)--(n1*-0x0)*-n1 # x\n\
            let n3 = (001*2*(0xffffffff00000000*0x5b*0x14-n2*n1 - n0*0xFFFFFFFF00000000*-n0)+n0) * n0 - -(n2)--((0xFFFFFFFF00000000+n0*499072675714501\
            1969) + 1*n0)",
        b"field goldilocks\npublic n0\npublic n1\npublic n2\n\
            assert 18446744069414584320 = (n2 * n1 + n0 + n1) * (-n0 * 3119490585967393839) - -(n1 * -0) * -n1\n\
            let n3 = (1 * 2 * (18446744069414584320 * 91 * 20 - n2 * n1 - n0 * 18446744069414584320 * -n0) + n0) * n0 - -n2 - -((18446744069414584320 \
            + n0 * 4990726757145011969) + 1 * n0)\n",
    ),
    (
        b"field gf2_128\nprivate n0\nlet n1 = 0x0*((n0) * n0 * n0)*n0 - (-n0*(-n0 + n0)*-(n0 + -0xffffffffffffffffffffffffffffffff - n0))\n  assert 0x\
            0*n1 - -(0x3f95fa455593a29fa16537a88f32e98 * 0x5+-0x2 * 180700365236308240201029155556820735080 * (n1 + n0 * n1) - (0034028236692093846346\
            3374607431768211455 * n1 - n0*n1 + n0) * -(-n1) * 0x8f74be83d2a0d1b82ff9f18eaa58164d)=(0x1*-0*n1 - n0)*(n1 * -n1 * n0+n1*-0034028236692093\
            8463463374607431768211455+-n1) + n0 * (2*00340282366920938463463374607431768211455*125307887229697847548782554775411646173)-n1*-n0*-n0 # x\
            \npublic n2\n\nlet n3 = 001 * n1 - n0\n  assert ((-n1*0x38+n0*n3*-n1 - -n3*n1)+-n0 * n2 * (n0 + n1 - n2)+-n1)+(n1*(n3+n3 * n0 * -n3+-n0*n1\
            )*(n1+n3 * n1 + 001*-n0)--(0 - 0x1-340282366920938463463374607431768211455) * n0)=(-n1 * n0 * -n1 + n3) * n3 # x\nprivate n4\t n5",
        b"field gf2_128\nprivate n0\nlet n1 = 0 * (n0 * n0 * n0) * n0 - -n0 * (-n0 + n0) * -(n0 + -340282366920938463463374607431768211455 - n0)\n\
            assert 0 * n1 - -(5282505753875013850610384141284486808 * 5 + -2 * 180700365236308240201029155556820735080 * (n1 + n0 * n1) - (34028236692\
            0938463463374607431768211455 * n1 - n0 * n1 + n0) * -(-n1) * 190685773934733263582036416128873928269) = (1 * -0 * n1 - n0) * (n1 * -n1 * n\
            0 + n1 * -340282366920938463463374607431768211455 + -n1) + n0 * (2 * 340282366920938463463374607431768211455 * 125307887229697847548782554\
            775411646173) - n1 * -n0 * -n0\npublic n2\nlet n3 = 1 * n1 - n0\n\
            assert ((-n1 * 56 + n0 * n3 * -n1 - -n3 * n1) + -n0 * n2 * (n0 + n1 - n2) + -n1) + (n1 * (n3 + n3 * n0 * -n3 + -n0 * n1) * (n1 + n3 * n1 \
            + 1 * -n0) - -(0 - 1 - 340282366920938463463374607431768211455) * n0) = (-n1 * n0 * -n1 + n3) * n3\nprivate n4\nprivate n5\n",
    ),
    (
        b"field gf2_128\npublic n0\t n1\t n2\nlet n3 = -n0*n1\n\n\
            let n4 = n1\n  assert ((n1 - n1) * (n3) * n4-(0x2B) * (n3)) * n0=n3+(n0*-n3*n2+n3 * n3) # x\n\
            # \xff comment @\n  assert n2 + -001*0=n2*0x1+n3 * n3 # x\n  assert n0 + n4=(n4 * -n0) * 0x3 # x\n\
            let n5 = ((n0 * n1)) * -((n0*n3*n0-0 * n1)*(n4*n4)) * ((n1)*n0*n4 - (n2*0x27338DE2978EB1E58B578717285CDAE5*n4) * 001)\n  assert n3 * n0=n2 # x\n",
        b"field gf2_128\npublic n0\npublic n1\npublic n2\nlet n3 = -n0 * n1\nlet n4 = n1\n\
            assert ((n1 - n1) * n3 * n4 - 43 * n3) * n0 = n3 + (n0 * -n3 * n2 + n3 * n3)\nassert n2 + -1 * 0 = n2 * 1 + n3 * n3\n\
            assert n0 + n4 = (n4 * -n0) * 3\nlet n5 = (n0 * n1) * -((n0 * n3 * n0 - 0 * n1) * (n4 * n4)) * (n1 * n0 * n4 - (n2 * 521075767476205824041\
            94489321805109989 * n4) * 1)\nassert n3 * n0 = n2\n",
    ),
    (
        b"field gf2_128\npublic n0\t n1\nprivate n2\nprivate n3\t n4\n\
            let n5 = n1 * 0 * (n0 * (n1*-n0*n4))-n4 * (-(0x4D * n0))\n  assert n1*-n2=-n1*-n4 # x\n  assert n2 - (0x0*n3) - -n4*n4*(-n1*1)=00152982992\
            200963342233093028812807566842*(n4 * n1-n1*n5) + -n2 * -(n1*n2*-n4)-(-n4*-n1 + n5) * n1 # x\n \t\r\n  assert ((n0 + n1 - 1 * 000 * 0x77143\
            2bb05845f7efd5cd01add77ed9c) * -n2) - (-0x1*(n5 * -n5 * -0x1DAB7703A43680D69919561B2B719F9B))*((n3 + n0*n0)+n3 + 0x1)=n0*0x2C # x\n \t\r\n\
            private n6\npublic n7\t n8\n",
        b"field gf2_128\npublic n0\npublic n1\nprivate n2\nprivate n3\nprivate n4\nlet n5 = n1 * 0 * (n0 * (n1 * -n0 * n4)) - n4 * -(77 * n0)\n\
            assert n1 * -n2 = -n1 * -n4\nassert n2 - 0 * n3 - -n4 * n4 * (-n1 * 1) = 152982992200963342233093028812807566842 * (n4 * n1 - n1 * n5) + -\
            n2 * -(n1 * n2 * -n4) - (-n4 * -n1 + n5) * n1\nassert (n0 + n1 - 1 * 0 * 158283006373429712403734155556868844956) * -n2 - (-1 * (n5 * -n5 \
            * -39437908535820769956767345895604854683)) * ((n3 + n0 * n0) + n3 + 1) = n0 * 44\nprivate n6\npublic n7\npublic n8\n",
    ),
    (
        b"field gf2_128\nprivate n0\n \t\r\n  assert (002-(0xFFFFFFFFFFFFFFFFFFFFFFFFFFFFFFFF+n0)*n0)=(n0)--n0 * 0x0 # x\n  assert (n0-n0 - n0) + -(34\
            0282366920938463463374607431768211455 + n0 - (n0*n0 + n0 * n0))*((n0 * -n0+n0)*-0x0*-(n0) - -(n0) + -n0)*(n0 - n0-n0 * 0x2D * (n0*-n0*n0 \
            + n0))=n0*0x3 + 9055083327019920878939080290619403509 * n0 # x\n",
        b"field gf2_128\nprivate n0\nassert 2 - (340282366920938463463374607431768211455 + n0) * n0 = n0 - -n0 * 0\n\
            assert (n0 - n0 - n0) + -(340282366920938463463374607431768211455 + n0 - (n0 * n0 + n0 * n0)) * ((n0 * -n0 + n0) * -0 * -n0 - -n0 + -n0) \
            * (n0 - n0 - n0 * 45 * (n0 * -n0 * n0 + n0)) = n0 * 3 + 9055083327019920878939080290619403509 * n0\n",
    ),
    (
        b"field gf2_128\npublic n0\t n1\t n2\nlet n3 = -((n1 * n0 * n2 - -n2 * n2+0x0) * (n2*n0*n2) * -0x2)\n \t\r\n\
            assert -n3 * -n1 * n2 = (-n2 * -n0 - (0045 * -n0) - n2*-(n3-n3*n3))*n1",
        b"field gf2_128\npublic n0\npublic n1\npublic n2\nlet n3 = -((n1 * n0 * n2 - -n2 * n2 + 0) * (n2 * n0 * n2) * -2)\n\
            assert -n3 * -n1 * n2 = (-n2 * -n0 - 45 * -n0 - n2 * -(n3 - n3 * n3)) * n1\n",
    ),
    (
        b"field goldilocks\npublic n0\t n1\t n2\npublic n3\nlet n4 = n1\n  assert 002 * 0xffffffff00000000 - n3 - (001+n1)=-0 * -0x2 # x",
        b"field goldilocks\npublic n0\npublic n1\npublic n2\npublic n3\nlet n4 = n1\nassert 2 * 18446744069414584320 - n3 - (1 + n1) = -0 * -2\n",
    ),
    (
        b"field gf2_128\nprivate n0\npublic n1\t n2\n  assert n1*n2=(n1 * n1) # x\n  assert -((n2*n2)*-n2*00340282366920938463463374607431768211455+(n\
            1*n2)*(-0099*-n2 - n2-n2 * n2))-n0*0x1=(0xFFFFFFFFFFFFFFFFFFFFFFFFFFFFFFFF * n2)*(0x1f * 20 - n1*n1) # x\n \t\r\npublic n3\t n4\t n5\n\
            let n6 = n2+n4*n3\nlet n7 = ((n4*-86) * n2 - n1)*((n1*-n6 - n6*0x0) * -(-n6 * 0 - n0 * n2+-n5 * -n2))\n",
        b"field gf2_128\nprivate n0\npublic n1\npublic n2\nassert n1 * n2 = n1 * n1\n\
            assert -((n2 * n2) * -n2 * 340282366920938463463374607431768211455 + (n1 * n2) * (-99 * -n2 - n2 - n2 * n2)) - n0 * 1 = (34028236692093846\
            3463374607431768211455 * n2) * (31 * 20 - n1 * n1)\npublic n3\npublic n4\npublic n5\nlet n6 = n2 + n4 * n3\n\
            let n7 = ((n4 * -86) * n2 - n1) * ((n1 * -n6 - n6 * 0) * -(-n6 * 0 - n0 * n2 + -n5 * -n2))\n",
    ),
    (
        b"field gf2_128\npublic n0\nprivate n1\n\nlet n2 = (-0011 + (n1 * n1+n0)*-(n1*-n1))+340282366920938463463374607431768211455\n  assert 0xF458E4\
            FA2F72729025FAD668464CC6D*-((n1*n2+n1 * -n1) * (n1*n1) + -0 * (n0*181139018423505668109283978588111353082) * (n2 * n2+n2 * n0))+((n2-n1*n0\
            *n0)*n0*0x2+-n2*0x0*(n1*-n1 - n2))*n1=-(n1*n0*n1 - -000*n0*-n0) * -(n0)+n1*n2*n2-n0 # x\n",
        b"field gf2_128\npublic n0\nprivate n1\nlet n2 = (-11 + (n1 * n1 + n0) * -(n1 * -n1)) + 340282366920938463463374607431768211455\n\
            assert 20299574831636559561291679995080789101 * -((n1 * n2 + n1 * -n1) * (n1 * n1) + -0 * (n0 * 181139018423505668109283978588111353082) \
            * (n2 * n2 + n2 * n0)) + ((n2 - n1 * n0 * n0) * n0 * 2 + -n2 * 0 * (n1 * -n1 - n2)) * n1 = -(n1 * n0 * n1 - -0 * n0 * -n0) * -n0 + n1 * n\
            2 * n2 - n0\n",
    ),
    (
        b"field gf2_128\npublic a\nprivate b\nlet c = a-(b-a)--(a*b)*(a+b)\nlet d = -(-c) - -(a + 0xff)*(a*b)*-7\nassert (a-b)-(c) = d*(d)\n",
        b"field gf2_128\npublic a\nprivate b\nlet c = a - (b - a) - -(a * b) * (a + b)\nlet d = -(-c) - -(a + 255) * (a * b) * -7\n\
            assert (a - b) - c = d * d\n",
    ),
];
